//! The JSON messages of the wire: each is read with its first fault, and written compactly.
#![tactic(auto)]

mod body;
mod callbacks;
mod fault;
mod idle_beat;
mod item;
mod kill;
mod laws;
mod log;
mod log_answer;
mod manage;
mod member;
mod registry;
mod returned;
mod run;
mod text_member;
mod token;
mod written;

pub use callbacks::{read_callbacks, write_callbacks};
pub use fault::MessageFault;
pub use idle_beat::{IdleBeatMessage, read_idle_beat, write_idle_beat};
pub use item::{read_item, write_item};
pub use kill::{KillMessage, read_kill, write_kill};
pub use laws::{law_callbacks, law_messages, law_numbers, law_tables, law_values};
pub use log::{LogMessage, read_log, write_log};
pub use log_answer::{LogAnswer, read_log_answer, write_log_answer};
pub use manage::{ManageMessage, read_manage_body, write_manage_body};
pub use registry::{RegistryMessage, read_registry, write_registry};
pub use returned::{ReturnMessage, read_return, write_return};
pub use run::{RunMessage, read_run, write_run};
pub use text_member::cut;
pub use token::token_ok;
