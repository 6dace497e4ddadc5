// Doubling a block in GF(2^128).
ghost use Rattle.std.specs.Prelude.{◌≡◌, ◌+◌, ◌*◌, ◌/◌, ◌%◌};
ghost use Rattle.cmac.specs.Cmac.{shifted, doubled};

use crate::blocks::BLOCK;

// A byte shifted left by one bit, with the highest bit of the byte behind it.
#[tactic(auto, using(crate::specs::Shift::or_behind))]
fn shifted_byte(byte: u8, behind: u8) -> u8
    ensures { result ≡ byte * 2 % 256 + behind / 128 }
{
    (byte << 1) | (behind >> 7)
}

// The block shifted left by one bit, out of its first byte.
fn shift_left(block: &[u8; BLOCK]) -> [u8; BLOCK]
    ensures { result ≡ shifted block.now }
{
    // By `array::from_fn` the proof leaves open what its sixteen calls give as a list.
    let mut shifted = *block;
    for (i, byte) in shifted.iter_mut().enumerate() {
        *byte = shifted_byte(*byte, block.get(i + 1).copied().unwrap_or(0));
    }
    shifted
}

// What is joined into the last byte for the bit that falls out of the first.
fn carry(first: u8) -> u8
    ensures { result ≡ first / 128 * 0x87 }
{
    (first >> 7) * 0x87
}

// Twice the block.
pub fn double(block: &[u8; BLOCK]) -> [u8; BLOCK]
    ensures { result ≡ doubled block.now }
{
    let mut twice = shift_left(block);
    twice[BLOCK - 1] ^= carry(block[0]);
    twice
}
