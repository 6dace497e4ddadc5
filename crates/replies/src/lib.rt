//! Replies: the objects that the card answers with, and the blocks in which they go out.
#![tactic(auto)]

pub mod block;
pub mod law;
pub mod reply;
mod tag;
mod write;
