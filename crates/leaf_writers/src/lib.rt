// What is written and opens no index: numbers, marks, names and strings; what the writers of types share.
#![tactic(auto)]

pub mod attributes;
pub mod brackets;
pub mod fragments;
pub mod marks;
pub mod named;
pub mod names;
pub mod numbers;
pub mod strings;
