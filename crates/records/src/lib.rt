// One record of a file (01, Triangle records): its fields, and the questions that are asked of it.
#![tactic(auto)]

pub mod fields;
pub mod questions;
