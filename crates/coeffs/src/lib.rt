// The coefficients, for the fits: nothing here is a public call.
#![tactic(auto)]

pub mod inner;
