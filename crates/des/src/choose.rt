// Choices of bits by a table of places.
ghost use Rattle.std.specs.Prelude.{◌≡◌, ◌^◌, ◌<◌, ◌≤◌, T, length};
ghost use Rattle.des_tables.specs.Bits.{bits, chosen};
ghost use Rattle.des_tables.specs.Tables.{pc1, pc2};
ghost use Rattle.des.specs.Places.{places_in};

use crate::places::{PC1, PC2};

// The bits of `x`, which has `width` bits, at the places of a table, counted from 1 at the highest bit.
fn choose(places: &[u8], width: u32, x: u64) -> u64
    requires few { length places.now ≤ 64 }
    requires narrow { width ≤ 64 }
    requires table { T (places_in width places.now) }
    ensures is { bits (length places.now) result ≡ chosen places.now (bits width x) }
    ensures fits { result < 2 ^ length places.now }
{
    let mut out = 0u64;
    for p in places {
        let bit = (x >> (width - *p as u32)) % 2;
        out = out * 2 + bit;
    }
    out
}

// Permuted choice 1: the 56 bits of C and D.
pub fn first_choice(key: u64) -> u64
    ensures is { bits 56 result ≡ chosen pc1 (bits 64 key) }
    ensures fits { result < 2 ^ 56 }
{
    choose(&PC1, 64, key)
}

// Permuted choice 2: the 48 bits of a round key.
pub fn second_choice(halves: u64) -> u64
    ensures { bits 48 result ≡ chosen pc2 (bits 56 halves) }
{
    choose(&PC2, 56, halves)
}
