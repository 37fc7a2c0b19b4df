// QR's matrix and right-hand side, for `refit`: nothing here is a public call.
#![tactic(auto)]

pub mod inner;
