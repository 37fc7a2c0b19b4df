// The first solve of a fit and the rounds after it, for `strlsq`: nothing here is a public call.
#![tactic(auto)]

pub mod inner;
