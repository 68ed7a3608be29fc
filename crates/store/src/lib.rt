// The places of a controller's memory, by kind and place.
#![tactic(auto)]

pub mod access;
pub mod chain;
pub mod load;
mod place;
pub mod store;
mod word;
