//! A file of the operating system as a device of `kept_log`: under a lock, shut for good by its
//! first failure, and with a record of what was asked of it.
#![tactic(auto)]

mod device;
mod file;
mod record;
mod threads;
mod torn;

pub use device::FileDevice;
pub use file::OpenError;
pub use record::Call;
pub use threads::file_goes_to_a_thread;
pub use torn::keep_torn;
