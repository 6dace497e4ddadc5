// The frame of a text: its head, its body, the check over both, and the fill.
#![tactic(auto)]

mod read;
mod write;

pub use read::read_frame;
pub use write::write_frame;
