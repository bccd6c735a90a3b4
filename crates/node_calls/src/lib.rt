//! What admin nodes and executors share: the requests of a link served one after another, and their answers.
#![tactic(auto)]

pub mod body;
pub mod serving;
pub mod writing;

pub use body::{Answer, Body, Fixed};
pub use serving::{End, Round, Served, one_more};
pub use writing::{put, write_answer, write_refusal};
