// Suites and directions, and the byte that stands for each.
ghost use Rattle.std.specs.Prelude.{◌≡◌, slice_index, Some};
ghost use Rattle.std.specs.Option.{ok_or};
ghost use Rattle.sealing.specs.Suites.{cipher_byte, cipher_of, mechanism_byte, mechanism_of, direction_byte, direction_of, suite_of, unknown_byte_words};

use std::error::Error;
use std::fmt;

// The ciphers of a suite, each with its byte.
#[derive(Clone, Copy, PartialEq, Eq, Debug)]
pub enum Cipher {
    // Triple DES whose third key is its first.
    TwoKey = 0x01,
    // Triple DES with three keys.
    ThreeKey = 0x02,
    // AES with a key of 128 bits.
    Aes = 0x04,
}

// The integrity mechanisms of a suite, each with its byte.
#[derive(Clone, Copy, PartialEq, Eq, Debug)]
pub enum Mechanism {
    Crc32 = 0x01,
    // CMAC with AES-128.
    Cmac = 0x04,
}

// A cipher and a mechanism.
#[derive(Clone, Copy, PartialEq, Eq, Debug)]
pub struct Suite {
    pub cipher: Cipher,
    pub mechanism: Mechanism,
}

// Which way a text goes, each with its byte.
#[derive(Clone, Copy, PartialEq, Eq, Debug)]
pub enum Direction {
    Command = 0x00,
    Reply = 0x01,
}

// A byte that stands for no cipher, no mechanism or no direction.
#[derive(Clone, Copy, PartialEq, Eq, Debug)]
pub struct UnknownByte;

impl fmt::Display for UnknownByte {
    ghost output = { λ _. Some unknown_byte_words };

    fn fmt<W: fmt::Write>(&self, f: &mut fmt::Formatter<W>) -> fmt::Result {
        f.write_str("the byte stands for nothing that is known")
    }
}

impl Error for UnknownByte {}

// The three pairs differ in all but their shape; each is an impl of two traits of std.

// The byte that stands for the cipher.
impl From<Cipher> for u8 {
    ghost from_gives = { λ c b. b ≡ cipher_byte c };

    fn from(cipher: Cipher) -> u8 {
        cipher as u8
    }
}

// The cipher that a byte stands for.
impl TryFrom<u8> for Cipher {
    type Error = UnknownByte;

    ghost try_from_gives = { λ b r. r ≡ ok_or (cipher_of b) (record {}) };

    fn try_from(byte: u8) -> Result<Cipher, UnknownByte> {
        match byte {
            0x01 => Ok(Cipher::TwoKey),
            0x02 => Ok(Cipher::ThreeKey),
            0x04 => Ok(Cipher::Aes),
            _ => Err(UnknownByte),
        }
    }
}

// The byte that stands for the mechanism.
impl From<Mechanism> for u8 {
    ghost from_gives = { λ m b. b ≡ mechanism_byte m };

    fn from(mechanism: Mechanism) -> u8 {
        mechanism as u8
    }
}

// The mechanism that a byte stands for.
impl TryFrom<u8> for Mechanism {
    type Error = UnknownByte;

    ghost try_from_gives = { λ b r. r ≡ ok_or (mechanism_of b) (record {}) };

    fn try_from(byte: u8) -> Result<Mechanism, UnknownByte> {
        match byte {
            0x01 => Ok(Mechanism::Crc32),
            0x04 => Ok(Mechanism::Cmac),
            _ => Err(UnknownByte),
        }
    }
}

// The byte that stands for the direction.
impl From<Direction> for u8 {
    ghost from_gives = { λ d b. b ≡ direction_byte d };

    fn from(direction: Direction) -> u8 {
        direction as u8
    }
}

// The direction that a byte stands for.
impl TryFrom<u8> for Direction {
    type Error = UnknownByte;

    ghost try_from_gives = { λ b r. r ≡ ok_or (direction_of b) (record {}) };

    fn try_from(byte: u8) -> Result<Direction, UnknownByte> {
        match byte {
            0x00 => Ok(Direction::Command),
            0x01 => Ok(Direction::Reply),
            _ => Err(UnknownByte),
        }
    }
}

// The suite of a cipher's byte and a mechanism's byte.
impl TryFrom<[u8; 2]> for Suite {
    type Error = UnknownByte;

    ghost try_from_gives = { λ b r. r ≡ ok_or (suite_of (slice_index b 0) (slice_index b 1)) (record {}) };

    fn try_from(bytes: [u8; 2]) -> Result<Suite, UnknownByte> {
        let [cipher, mechanism] = bytes;
        Ok(Suite {
            cipher: Cipher::try_from(cipher)?,
            mechanism: Mechanism::try_from(mechanism)?,
        })
    }
}
