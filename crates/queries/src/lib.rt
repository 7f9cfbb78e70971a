// What is asked of the streams and not written: the this pointer of a method, the size of a type, the levels of an array.
#![tactic(auto)]

pub mod arrays;
pub mod scan;
pub mod sizes;
pub mod this;
