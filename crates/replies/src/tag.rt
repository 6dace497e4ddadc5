//! The tags of the objects that stand in replies alone: bytes, since they are written as bytes.

/// A started session's byte.
pub const SESSION: u8 = 0x53;
/// The key mechanism that the card chose.
pub const KEY_MECHANISM: u8 = 0x84;
/// The card's nonce.
pub const CARD_NONCE: u8 = 0x89;
/// The cipher that the card chose.
pub const CIPHER: u8 = 0x8A;
/// The integrity mechanism that the card chose.
pub const MECHANISM: u8 = 0x8B;
/// The MAC over an established connection.
pub const CONNECTION_MAC: u8 = 0x8C;
/// How often a MAC or a command was wrong.
pub const FAILURES: u8 = 0x8F;
/// The card's endpoint, always FF.
pub const ENDPOINT: u8 = 0x91;
/// Whether the card requires the channel.
pub const REQUIRED: u8 = 0x92;
