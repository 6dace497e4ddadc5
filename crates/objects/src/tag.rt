//! The tags of the objects in requests: bytes and no enum, since they are read, written and matched as bytes.

/// The object that holds all the others.
pub const OBJECT: u8 = 0x73;
/// A key's reference.
pub const REFERENCE: u8 = 0x81;
/// The key mechanisms that a terminal has.
pub const KEY_MECHANISMS: u8 = 0x82;
/// A master's identifier.
pub const MASTER: u8 = 0x83;
/// A terminal's nonce.
pub const TERMINAL_NONCE: u8 = 0x85;
/// The ciphers that a terminal has.
pub const TERMINAL_CIPHERS: u8 = 0x86;
/// The integrity mechanisms that a terminal has.
pub const TERMINAL_MECHANISMS: u8 = 0x87;
/// A connection's identifier.
pub const CONNECTION: u8 = 0x88;
/// The MAC that starts a session.
pub const START_MAC: u8 = 0x8D;
/// The MAC that terminates a master or a connection.
pub const END_MAC: u8 = 0x8E;
/// The size of the blocks in a session.
pub const CONTAINER: u8 = 0x90;
