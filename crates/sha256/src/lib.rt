// SHA-256 (FIPS 180-2) of messages of any length, whole or taken in parts.
#![tactic(auto)]

mod hash;
mod output;
mod pad;
mod state;

pub use hash::digest_of;
pub use state::Sha256;
