// Questions that are put to one item after another.
#![tactic(auto)]

pub mod both;
pub mod pass;
pub mod rule;
