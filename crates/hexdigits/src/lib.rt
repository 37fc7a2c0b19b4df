// Hex digits in slices of bytes, for the crates above: nothing here is a public call.
#![tactic(auto)]

pub mod inner;
