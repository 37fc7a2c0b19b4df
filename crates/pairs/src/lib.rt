// The pair sums of a matrix's columns take a page of its rows, for `sums`: nothing here is a public call.
#![tactic(auto)]

mod fours;
pub mod inner;
mod kernel;
pub mod page;
