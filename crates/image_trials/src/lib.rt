// Images word by word, and all constants that a list can have.
#![tactic(auto)]

#[cfg(test)]
mod defined;
#[cfg(test)]
mod images;
