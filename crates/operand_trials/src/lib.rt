// Every operand code, item number and block number, there and back.
#![tactic(auto)]

#[cfg(test)]
mod codes;
#[cfg(test)]
mod numbers;
