// Cholesky, for `solve`: nothing here is a public call.
#![tactic(auto)]

pub mod inner;
