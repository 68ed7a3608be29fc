// What the working of a block tells.

#[derive(Clone, Copy, Debug, PartialEq, Eq)]
pub struct Worked {
    // in pin order; what a kind does not have is 0
    pub outputs: [i32; 3],
    // whether a jump is to be taken
    pub jumps: bool,
}
