// What a card holds: four rows each of keys, masters and connections.
#![tactic(auto)]

mod at;
mod empty;
mod enter;
mod find;
mod limits;
mod named;
mod remove;
mod retain;
mod rows;

pub use at::At;
pub use named::Named;
pub use rows::{Connection, Key, Master, Tables};
