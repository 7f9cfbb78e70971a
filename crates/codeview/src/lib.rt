// CodeView records: type and id indexes, and the record that each stands for, decoded.
#![tactic(auto)]

pub mod fields;
pub mod ids;
pub mod index;
pub mod kinds;
pub mod lent;
pub mod record;
pub mod types;
