// The hitchhiker tree, after htree.rs of the Rust.
#![tactic(auto)]

pub mod insert;
pub mod place;
pub mod root;
