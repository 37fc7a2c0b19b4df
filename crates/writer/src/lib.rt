// The lines of an answer, for the exchange: nothing here is a public call.
#![tactic(auto)]

pub mod inner;
