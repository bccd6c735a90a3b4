//! The spool text: the results that an executor keeps in a file, one line of JSON each.
#![tactic(auto)]

pub mod fault;
pub mod reading;
#[cfg(test)]
mod tests;
pub mod writing;

pub use fault::SpoolFault;
pub use reading::read_spool;
pub use writing::write_spool;
