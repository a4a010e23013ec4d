// What threads may hand on.
use crate::FileDevice;
use kept_log::Reading;

fn goes_to_a_thread<T: Send>() {}

/// A file may be sent to a thread. Nothing is done.
pub fn file_goes_to_a_thread<M: Reading + Send>() {
    goes_to_a_thread::<FileDevice<M>>()
}
