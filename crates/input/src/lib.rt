// The one reader of standard input, for all programs: nothing here is a public call.
#![tactic(auto)]

pub mod inner;
