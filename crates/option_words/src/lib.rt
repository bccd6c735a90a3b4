//! Words of a command line: the options of the two node programs, the words that give them plainly,
//! and what each program's options then have.
#![tactic(auto)]

pub mod laws;
pub mod limits;
