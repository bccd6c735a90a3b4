//! Laws of the cluster's histories: what the definitions say of every run, in the subject's own
//! words. Each law is the contract of a function without parameters and with an empty body.
#![tactic(auto)]

pub mod laws;
