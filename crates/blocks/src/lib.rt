// The seven block kinds, each behind its meaning, and the working of a call by its kind.
#![tactic(auto)]

pub mod ctud;
pub mod dispatch;
pub mod esv;
pub mod moa;
pub mod muldi;
mod pins;
pub mod rising_edge;
pub mod spbm;
mod timing;
pub mod zuwd;
