// The header and the numbers of an input, for the exchange: nothing here is a public call.
#![tactic(auto)]

pub mod inner;
