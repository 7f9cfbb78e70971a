// Fields of a slice of bytes: little-endian numbers, numeric leaves, zero-ended names. Any place is taken; what lies outside the slice is said. And slices
// as a whole.
#![tactic(auto)]

pub mod bytes;
pub mod field;
pub mod leaf;
pub mod name;
