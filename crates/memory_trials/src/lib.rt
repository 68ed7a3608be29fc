// Memory on examples: every kind at its ends, chains, forbidden values, cells, loads and clears.
#![tactic(auto)]

#[cfg(test)]
mod clears;
#[cfg(test)]
mod places;
