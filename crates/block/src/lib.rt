// What every block kind shows, and the working of any of them on its window of the history.
#![tactic(auto)]

pub mod call;
pub mod kind;
pub mod window;
pub mod worked;
