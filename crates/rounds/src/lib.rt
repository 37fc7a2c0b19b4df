// The rounds of a fit, for `strlsq`: nothing here is a public call.
#![tactic(auto)]

pub mod inner;
