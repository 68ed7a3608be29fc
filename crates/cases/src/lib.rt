// Cases that a program reads, line by line: what is due, and the text that it is due for.
//
// A text is written `|TEXT|`, or `|FRONT|PART|TIMES|BACK|` where PART stands many times. It has
// \n, \r, \t and \x with two digits for bytes that a line of a file cannot have.
#![tactic(auto)]

pub mod buffer;
pub mod escape;
pub mod lines;
pub mod text;
