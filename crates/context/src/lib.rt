// What is passed down: by value the flags and the other settings of a call, the pointer levels on the way to a type and the levels of an array, the last two
// as stacks that grow down in an array; lent, the list of the indexes that are open.
#![tactic(auto)]

pub mod flags;
pub mod levels;
pub mod seen;
