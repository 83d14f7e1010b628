// Listing the datoms between two bounds, after Iter of the Rust: a cursor by value beside the store. Document 01, "Listing": the rules
// stand in rules/specs/Listing.antt.
#![tactic(auto)]

pub mod begin;
pub mod candidate;
pub mod descent;
pub mod opening;
pub mod step;
pub mod way;
