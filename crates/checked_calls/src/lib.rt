// The four calls over what is kept of the stream checks, how that is made, and the answer of a text call, read off the pen that its walk leaves.
#![tactic(auto)]

pub mod answer;
pub mod calls;
pub mod kept;
