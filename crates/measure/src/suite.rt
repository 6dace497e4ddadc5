// The suites under which fares are measured.
use sealing::{Cipher, Mechanism, Suite};
use terminal::Offer;

// A suite, the offer that leads to it, and the sums of lengths that a burst of 32 fares must give: of the card's replies, and
// of the bodies and answers.
#[derive(Clone, Copy)]
pub struct Case {
    pub offer: Offer,
    pub suite: Suite,
    pub replied: usize,
    pub sealed: usize,
}

// AES and CMAC: an answer has 32 bytes.
pub const AES: Case = Case {
    offer: Offer {
        nonce: *b"terminal's nonce",
        ciphers: 0x04,
        mechanisms: 0x04,
    },
    suite: Suite {
        cipher: Cipher::Aes,
        mechanism: Mechanism::Cmac,
    },
    replied: 32 * (2 + 34),
    sealed: 32 * (10 + 32),
};

// Triple DES with three keys and CRC-32: an answer has 24 bytes.
pub const TRIPLE: Case = Case {
    offer: Offer {
        nonce: *b"terminal's nonce",
        ciphers: 0x02,
        mechanisms: 0x01,
    },
    suite: Suite {
        cipher: Cipher::ThreeKey,
        mechanism: Mechanism::Crc32,
    },
    replied: 32 * (2 + 26),
    sealed: 32 * (10 + 24),
};
