//! Laws of sessions: what follows from their definitions alone, each the contract of a function that does nothing.
#![tactic(auto)]

mod laws;

pub use laws::{
    each_message_is_answered, histories_only_grow, one_cut, one_end, one_reply_text,
    one_session_repeats_no_iv, runs_keep_lawful, servers_are_one_run, sessions_are_calls,
    workers_made_all,
};
