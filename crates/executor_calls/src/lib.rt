//! The node calls of an executor: a runner's turn, callbacks, beats, and what looks after it.
#![tactic(auto)]

pub mod beat;
pub mod callback;
pub mod handler;
pub mod run;
pub mod tend;

pub use beat::beat_once;
pub use callback::{CallbackDone, callback_once};
pub use handler::{HandlerResult, Handlers, RunInput, RunOutput};
pub use run::{RunDone, run_once};
pub use tend::{TendDone, expire_once, tend_once};
