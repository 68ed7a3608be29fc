// Sums at their limits, and blocks worked scan by scan.
#![tactic(auto)]

#[cfg(test)]
mod rows;
#[cfg(test)]
mod scans;
#[cfg(test)]
mod sums;
