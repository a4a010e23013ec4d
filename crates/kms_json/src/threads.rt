// What threads may share.
use crate::asks::Ask;
use crate::replies::Reply;

fn crosses_threads<T: Send + Sync>() {}

/// A request and a reply, and all that they hold, may be sent to threads and shared by them. Nothing is done.
pub fn asks_and_replies_cross_threads() {
    crosses_threads::<Ask>();
    crosses_threads::<Reply>()
}
