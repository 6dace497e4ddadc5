// Sealing and opening by the real sealer, as calls for C.
#![tactic(auto)]

mod asked;
mod calls;
mod refusal;
mod texts;

pub use calls::{card_open, card_seal};
pub use refusal::Refusal;
