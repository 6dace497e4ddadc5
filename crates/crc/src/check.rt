// CRC-32, and its check of a message.
ghost use Rattle.std.specs.Prelude.{◌≡◌, ◌/◌, ◌%◌, [], ◌∷◌};
ghost use Rattle.crc.specs.Crc.{bits, remainder, inverted, start, crc};
ghost use Rattle.byte_lists.proofs.Digits.{length_octets, bytes_octets};
ghost use Rattle.std.proofs.Common.{lit≤};

use crate::table::byte_remainder;
use integrity::Integrity;

// CRC-32, which has no key.
#[derive(Clone, Copy)]
pub struct Crc32;

// The state with the eight bits of its lowest byte divided.
#[tactic(auto, using(crate::proofs::Division::eight_bits))]
fn divide_byte(state: u32) -> u32
    ensures { result ≡ bits 8 state }
{
    byte_remainder((state & 0xff) as u8) ^ (state >> 8)
}

// The remainder of the message.
fn divide(message: &[u8]) -> u32
    ensures { result ≡ remainder start message.now }
{
    message.iter().fold(
        0xffff_ffff,
        |state, byte| divide_byte(state ^ u32::from(*byte)),
    )
}

// The inverted remainder of the message.
fn divide_and_invert(message: &[u8]) -> u32
    ensures { result ≡ inverted (remainder start message.now) }
{
    divide(message) ^ 0xffff_ffff
}

impl Integrity for Crc32 {
    const LEN: usize = 4;

    ghost LEN = { 4 };

    ghost check = { λ _ message. crc message };

    ghost bounded = { (lit≤ tt, lit≤ tt) };

    ghost fixed = { unfold crc in λ k message h. (length_octets 4 (inverted (remainder start message)), bytes_octets 4 (inverted (remainder start message))) };

    fn write_check(&self, message: &[u8], out: &mut [u8]) {
        out.copy_from_slice(&divide_and_invert(message).to_be_bytes());
    }
}
