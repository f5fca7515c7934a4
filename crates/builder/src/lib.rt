// Building the table of a text that is in the written form.
#![tactic(auto)]

pub mod build;
