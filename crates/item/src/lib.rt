// The items of an instruction list, and the mnemonics that they are written with.
#![tactic(auto)]

pub mod item;
pub mod mnemonic;
