// The listing of an image: its text, a line for each item and then one for each constant.
#![tactic(auto)]

pub mod list;
pub mod refusal;
