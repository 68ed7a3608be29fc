// The check of an image: twelve questions, the first no with its place.
#![tactic(auto)]

pub mod check;
pub mod example;
pub mod refusal;
