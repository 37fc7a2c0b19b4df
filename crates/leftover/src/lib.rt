// The leftover error of a fit, for its report: nothing here is a public call.
#![tactic(auto)]

pub mod fit;
pub mod inner;
