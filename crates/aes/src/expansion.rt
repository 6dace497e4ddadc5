// KeyExpansion: 44 words from the four of the key.
ghost use Rattle.std.specs.Prelude.{◌≡◌, ◌<◌, ◌≤◌};
ghost use Rattle.byte_lists.specs.Bytes.{xors};
ghost use Rattle.byte_lists.specs.Numbers.{octets};
ghost use Rattle.aes.specs.Steps.{sub_bytes};
ghost use Rattle.aes.specs.KeyExpansion.{rot_word, rcon, joining, key_expansion};
ghost use Rattle.aes.specs.Words.{bytes_of};

use crate::column::{added, sub_word, turned_right};
use crate::transfer::state_of;

// The powers of x from 0.
const RCON: [u8; 10] = [0x01, 0x02, 0x04, 0x08, 0x10, 0x20, 0x40, 0x80, 0x1b, 0x36];

// Rcon of a round, from 1.
#[tactic(auto, using(crate::proofs::Schedule::constant_made))]
fn round_constant(round: usize) -> u32
    requires { (1 ≤ round) × (round ≤ 10) }
    ensures { octets 4 result ≡ rcon round }
{
    u32::from_be_bytes([RCON[round - 1], 0, 0, 0])
}

// SubWord of RotWord.
fn sub_rotated(word: u32) -> u32
    ensures { octets 4 result ≡ sub_bytes (rot_word (octets 4 word)) }
{
    sub_word(turned_right(word, 3))
}

// The word before a round key, as it joins the first word of the one before.
fn first_joining(round: usize, before: u32) -> u32
    requires { (1 ≤ round) × (round ≤ 10) }
    ensures { octets 4 result ≡ xors (sub_bytes (rot_word (octets 4 before))) (rcon round) }
{
    added(sub_rotated(before), round_constant(round))
}

// What joins the word i - 4 to make the word i, from the word before it.
fn joining_word(i: usize, before: u32) -> u32
    requires { (4 ≤ i) × (i < 44) }
    ensures { octets 4 result ≡ joining i (octets 4 before) }
{
    if i % 4 == 0 {
        first_joining(i / 4, before)
    } else {
        before
    }
}

// The expanded key.
pub fn expand(key: &[u8; 16]) -> [u32; 44]
    ensures { bytes_of result ≡ key_expansion key.now }
{
    let mut keys = [0u32; 44];
    keys[0..4].copy_from_slice(&state_of(key).0);
    // By number: each word is made of two before it in the same array, which no iterator lends.
    for n in 0..40usize {
        keys[n + 4] = keys[n] ^ joining_word(n + 4, keys[n + 3]);
    }
    keys
}
