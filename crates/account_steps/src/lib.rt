//! What the steps of a decision go by, and their order. Each operation says its own parts of them.
#![tactic(auto)]

mod checks;
mod facts;
mod given;
mod ids;
mod particulars;
mod parts;
mod places;
mod questions;
mod sources;
mod stops;
mod texts;
mod threads;
mod view;

pub use checks::{
    Named, improper, key_if_given, key_of, key_of_alias, only_key_of, other_key, other_kind, unfit,
    unfit_mac, unrotated, unsupported,
};
pub use facts::RealmFacts;
pub use given::{grant_id_in, principal_if_given, principal_in};
pub use ids::{draw_line, grant_id, key_id, key_id_of};
pub use particulars::{
    KeySaid, of_context, of_key, of_mac, of_named, of_new_key, of_none, of_said,
};
pub use parts::{
    Changes, Made, Reads, Request, change, grant_id_of, grant_of_token, overfull, questions_of,
    read, refuse,
};
pub use places::{Places, Uses};
pub use questions::{Asking, LentAlias, OfGrants, Question, QuestionList, Questions};
pub use sources::{Sealed, find_source};
pub use stops::Stop;
pub use texts::{LentText, lent_if_given};
pub use threads::realm_facts_cross_threads;
pub use view::{LentGrant, View, told_state};
