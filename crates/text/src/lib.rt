// Digits: the text that tickets and printed plans are made of, read and written.
#![tactic(auto)]

pub mod read;
pub mod wide;
pub mod write;

// The byte that ends a line.
pub const END: u8 = 10;
