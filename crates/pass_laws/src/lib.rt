//! Laws of passes: what holds of every run of what they do, each the contract of a function that does nothing.
#![tactic(auto)]

mod laws;
mod moments;

pub use laws::{
    calls_are_events, calls_have_one_order, house_owes_nothing_more, machine_law, passes_law,
};
pub use moments::{moments_agree, moments_agree_with_told};
