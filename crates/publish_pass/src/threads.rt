//! What threads may share.

use crate::pass::Pass;
use crate::service::Service;
use keepers::Keeps;
use published_account::Realm;

fn crosses_threads<T: Send + Sync>() {}

fn goes_to_a_thread<T: Send>() {}

/// A service may be shared by threads, and a pass sent to one. Nothing is done.
pub fn service_and_pass_cross_threads<R: Realm + Send + Sync, K: Keeps + Send>() {
    crosses_threads::<Service<R, K>>();
    goes_to_a_thread::<Pass<R>>()
}
