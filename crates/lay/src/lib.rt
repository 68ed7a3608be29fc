// A pen over a lent buffer. What finds no room is counted and not written, so that the same walk
// over an empty buffer tells how long a text is.
#![tactic(auto)]

pub mod pen;
mod put;
