//! Laws of the entries of an account and of their text, each the contract of a function that does nothing.
#![tactic(auto)]

mod laws;

pub use laws::{
    entries_have_forms, held_histories_are_sound, journal_is_read_back, journals_are_judged_once,
    journals_differ, lawful_histories_are_sound, loaded_histories_are_opened,
    markers_of_tags_are_read_back, next_entries_fit,
};
