// The definitions of a phone validation session's calls, and how a session ends (validation.rs).
#![tactic(auto)]

pub mod ends;
