// The columns of Householder QR, for `decomp` and `least`: nothing here is a public call.
#![tactic(auto)]

pub mod inner;
