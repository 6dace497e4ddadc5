//! Objects: what joined command blocks hold, and the requests inside.
#![tactic(auto)]

pub mod join;
pub mod law;
mod read;
pub mod request;
pub mod tag;
