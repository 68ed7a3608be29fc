// The tokens of an instruction list's text.
#![tactic(auto)]

pub mod cut;
pub mod token;
