// A solve over a support's columns from the sums of all columns, which stand at the head of a workspace: nothing here is a public call.
#![tactic(auto)]

pub mod inner;
mod take;
