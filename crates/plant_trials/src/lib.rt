// The plants at the edges of their points, and a plant made by a stranger.
#![tactic(auto)]

pub mod bench;
#[cfg(test)]
mod lists;
#[cfg(test)]
mod plants;
