// Block ciphers: what one is, three that make another, and chaining in place.
#![tactic(auto)]

mod block;
mod cbc;
mod triple;
mod wide;

pub use block::BlockCipher;
pub use cbc::{cbc_decrypt, cbc_encrypt};
pub use triple::Triple;
pub use wide::Wide;
