// Q-transpose, for `least`, and what `householder` shares with it: nothing here is a public call. It stands on `steps` alone, so that it is proved early.
#![tactic(auto)]

pub mod inner;
