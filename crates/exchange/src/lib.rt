// What the bench programs share of an exchange: nothing here is a public call.
#![tactic(auto)]

pub mod inner;
