// The inverse of a positive definite matrix, for `solve`: nothing here is a public call.
#![tactic(auto)]

pub mod inner;
mod rows;
