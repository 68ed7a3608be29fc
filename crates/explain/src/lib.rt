// A refusal explained to a person: the question in words, and what stands at the place.
#![tactic(auto)]

pub mod shown;
pub mod words;
