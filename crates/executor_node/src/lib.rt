//! What an executor does with its shared machine: the requests of its links, its callbacks and beats.
#![tactic(auto)]

pub mod act;
pub mod answer;
pub mod call;
pub mod event;
pub mod lines;
pub mod machine;
pub mod serve;
pub mod settings;
pub mod share;

pub use machine::{ExecutorMachine, ExecutorOpening};
pub use serve::{ExecutorEnd, ExecutorServed, serve_executor};
pub use settings::ExecutorSettings;
pub use share::share_executor;
