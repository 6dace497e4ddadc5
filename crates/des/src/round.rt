// The rounds of DES.
ghost use Rattle.std.specs.Prelude.{◌≡◌, ◌+◌, ◌-◌, ◌*◌, ◌/◌, ◌%◌, ◌^◌, ◌<◌, bit_xor};
ghost use Rattle.des_tables.specs.Bits.{bits};
ghost use Rattle.des_tables.specs.Words.{wrapped};
ghost use Rattle.des.specs.Des.{mixed};

use des_tables::entry;

// A half between its last bit and its first.
fn wrap(half: u32) -> u64
    ensures { result ≡ wrapped half }
{
    let x = half as u64;
    ((x % 2) << 33) ^ (x << 1) ^ (x >> 31)
}

// The six bits that go into the box `i`: a window of the wrapped half, joined with six bits of the round key.
fn window(wide: u64, key: u64, i: u32) -> u64
    requires { i < 8 }
    ensures { result ≡ bit_xor (wide / 2 ^ (28 - 4 * i)) (key / 2 ^ (42 - 6 * i)) % 64 }
{
    ((wide >> (28 - 4 * i)) ^ (key >> (42 - 6 * i))) % 64
}

// The function of a round, on a half and a round key.
pub fn mix(half: u32, key: u64) -> u32
    ensures { bits 32 result ≡ mixed (bits 32 half) (bits 48 key) }
{
    let wide = wrap(half);
    let mut out = 0u32;
    // By number: a box, its window and its six bits of the key stand in three places, and no list holds them.
    for i in 0..8u32 {
        let v = window(wide, key, i);
        out ^= entry(i as usize, v as usize);
    }
    out
}
