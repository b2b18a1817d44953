// The steps of a routine: what each has as operands, what it sets and where it leads, and the 16 bytes that it is written in.
#![tactic(auto)]

mod code;
mod decoding;
mod encoding;
mod fields;
pub mod step;
pub mod tables;

pub use decoding::decode;
