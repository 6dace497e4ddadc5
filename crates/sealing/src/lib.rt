// Sealing: what a text and a suite are, and what every sealer promises.
#![tactic(auto)]

mod sealer;
mod suite;
mod text;

pub use sealer::{Opened, Sealer, texts_stay_apart};
pub use suite::{Cipher, Direction, Mechanism, Suite, UnknownByte};
pub use text::Text;
