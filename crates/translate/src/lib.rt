// From the text of a list to its image.
#![tactic(auto)]

pub mod refusal;
pub mod translate;
