// HMAC-SHA-256 (RFC 2104) over messages in any number of parts, and the expansion of keys by it.
#![tactic(auto)]

mod code;
mod expansion;
mod keys;

pub use code::{Hmac, mac, mac_joined};
pub use expansion::expand;
