// The arrays of a controller's memory. An operand's place is its index; a chain's index is its group.
use crate::chain::Chain;

#[derive(Drop)]
pub struct Store {
    pub inputs: [bool; 1024],
    pub outputs: [bool; 1024],
    pub markers: [bool; 4096],
    pub chains: [Chain; 128],
    // as the plant gave them: any 16 bits
    pub input_words: [u16; 128],
    pub output_words: [i16; 128],
    pub marker_words: [i16; 4096],
    pub constant_words: [i16; 640],
    pub marker_doubles: [i32; 512],
    pub constant_doubles: [i32; 128],
    pub history: [i32; 1024],
}
