// A whole list of calls on a session, made one after another from opening.
#![tactic(auto)]

pub mod calls;
pub mod replay;
