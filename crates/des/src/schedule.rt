// The key schedule: sixteen round keys from a key.
ghost use Rattle.std.specs.Prelude.{◌≡◌, ◌+◌, ◌*◌, ◌^◌, ◌<◌, ◌≤◌, map};
ghost use Rattle.des_tables.specs.Bits.{bits};
ghost use Rattle.des.specs.Schedule.{shifted, schedule};

use crate::choose::{first_choice, second_choice};

const SHIFTS: [u32; 16] = [1, 1, 2, 2, 2, 2, 2, 2, 1, 2, 2, 2, 2, 2, 2, 1];

// A half of 28 bits shifted to the left; what leaves comes in at the right.
fn shift(half: u64, by: u32) -> u64
    requires narrow { half < 2 ^ 28 }
    requires few { by ≤ 2 }
    ensures is { bits 28 result ≡ shifted by (bits 28 half) }
    ensures narrow { result < 2 ^ 28 }
{
    (half << by) % 0x1000_0000 + (half >> (28 - by))
}

// C before D.
fn joined(c: u64, d: u64) -> u64
    requires { (c < 2 ^ 28) × (d < 2 ^ 28) }
    ensures { result ≡ c * 2 ^ 28 + d }
{
    c * 0x1000_0000 + d
}

// The round keys of a key.
pub fn expand(key: u64) -> [u64; 16]
    ensures { map (bits 48) result ≡ schedule (bits 64 key) }
{
    let halves = first_choice(key);
    let mut c = halves / 0x1000_0000;
    let mut d = halves % 0x1000_0000;
    // A loop, as the halves go on from key to key: by `SHIFTS.map` a closure would have to change them, and the keys would take 700
    // bytes more of the stack.
    let mut keys = [0u64; 16];
    for (i, by) in SHIFTS.iter().enumerate() {
        c = shift(c, *by);
        d = shift(d, *by);
        keys[i] = second_choice(joined(c, d));
    }
    keys
}
