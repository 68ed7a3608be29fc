// Question 6: whether the items are a list, and where they begin none.
#![tactic(auto)]

pub mod automaton;
pub mod question;
