// Reading a text once from left to right: where it fails, or how large its table is.
#![tactic(auto)]

mod levels;
mod rules;
pub mod scan;
