// What a terminal offers when it asks for a connection.

// Its nonce, its ciphers and its integrity mechanisms, one bit for each.
#[derive(Clone, Copy)]
pub struct Offer {
    pub nonce: [u8; 16],
    pub ciphers: u8,
    pub mechanisms: u8,
}
