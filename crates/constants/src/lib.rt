// The constants behind a list: which may stand there, and the words that stand for them.
#![tactic(auto)]

pub mod decode;
pub mod pass;
pub mod rules;
