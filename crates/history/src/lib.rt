// Histories: lists of calls on one log, worked in their order.
#![tactic(auto)]

mod lending;
mod log;
mod steps;
mod working;

pub use log::Log;
pub use steps::{Note, Step};
pub use working::work;
