// What a fit keeps of the rows, for `refit`: nothing here is a public call.
#![tactic(auto)]

pub mod inner;
