// The sums of the normal equations, for `builders` and the fits: nothing here is a public call.
#![tactic(auto)]

pub mod inner;
