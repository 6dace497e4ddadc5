// Commands as they come over the line, and the status words that end every reply.
#![tactic(auto)]

mod alone;
mod body;
mod command;
mod kind;
mod read;
mod reply;
mod status;
mod words;

pub use body::{Body, Data, Le};
pub use command::Apdu;
pub use kind::Kind;
pub use reply::{put_reply, put_status};
pub use status::{NoSuchStatus, Status};
