// Ciphers, checks and digests as calls for C. A call whose lengths do not fit answers 1 and writes nothing.
#![tactic(auto)]

mod answers;
mod chains;
mod checks;
mod digests;
mod keys;

pub use chains::{
    card_aes_cbc_decrypt, card_aes_cbc_encrypt, card_triple_cbc_decrypt, card_triple_cbc_encrypt,
};
pub use checks::{card_cmac, card_crc32};
pub use digests::{card_hmac, card_sha256};
