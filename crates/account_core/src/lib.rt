//! The account of one thread: what it answers, by the history of its entries and the rows that they make.
//!
//! Contracts see an account as its facts and the list of its entries. Everything else that it keeps
//! is the replay of that list.
#![tactic(auto)]

mod account;
mod asking;
mod decide;
mod entering;
mod held_facts;
mod operations;
mod threads;
mod visiting;

pub use account::Account;
pub use account_rows::{Entry, What};
pub use account_steps::{OfGrants, Places, Question, QuestionList, RealmFacts};
pub use asking::Asked;
pub use authority::{Identity, IdentityList, PolicyList};
pub use decide::Decision;
pub use draw_lines::DrawLine;
pub use entering::FitFault;
pub use kms_json::{Ask, AskBody, Reply};
pub use threads::account_crosses_threads;
