// What a command asks of the card.
#![tactic(auto)]

mod read;
mod request;

pub use apdu::Kind;
pub use request::{Block, Discard, Fetch, Request};
