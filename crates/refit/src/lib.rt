// A solve over a support's columns, its values put at their terms: nothing here is a public call.
#![tactic(auto)]

pub mod inner;
