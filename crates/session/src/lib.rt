// A connection's session: idle, gathering a command, or holding an answer.
#![tactic(auto)]

mod block;
mod event;
mod gather;
mod handle;
mod hold;
mod state;

pub use block::same_bytes;
pub use event::Heard;
pub use state::{Block, Held, Part, Session, Talk};
