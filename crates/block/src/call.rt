// What a call of a block is worked on.

#[derive(Clone, Copy, Debug, PartialEq, Eq)]
pub struct Call {
    // in pin order; what a kind does not have is not read
    pub inputs: [i32; 5],
    // the time of this scan
    pub ms: u32,
}
