//! The runs of an executor: a lane for each job, the first run of each queue in order of acceptance, and the job that each
//! runner serves.
#![tactic(auto)]

pub mod front;
pub mod lanes;
pub mod queues;
pub mod ranked;
pub mod ready;
pub mod serving;
pub mod waiting;

pub use front::Front;
pub use queues::Queues;
pub use ranked::Ranked;
pub use serving::Serving;
