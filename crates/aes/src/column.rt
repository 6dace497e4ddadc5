// One column of the state: its rows, and the steps of a round on it.
ghost use Rattle.std.specs.Prelude.{◌≡◌, ℕ, ◌<◌, ◌≤◌, List, map, slice_index};
ghost use Rattle.byte_lists.specs.Bytes.{xors};
ghost use Rattle.byte_lists.specs.Numbers.{octets};
ghost use Rattle.aes.specs.Steps.{sub_bytes, mix_columns, inv_sub_bytes, inv_mix_columns};
ghost use Rattle.aes.specs.Words.{turned, gathered, looked_up};

use sbox::{inv_mix, inv_sub_byte, sub_byte, sub_mix};

// The byte of the column in a row, from 0.
#[tactic(auto, using(byte_lists::proofs::Digits::octets_four))]
fn byte_in(column: u32, row: usize) -> u8
    requires { row < 4 }
    ensures { result ≡ slice_index (octets 4 column) row }
{
    column.to_be_bytes()[row]
}

// The sum of two words, byte by byte.
#[tactic(auto, using(crate::proofs::WordBytes::octets_xor))]
pub fn added(a: u32, b: u32) -> u32
    ensures { octets 4 result ≡ xors (octets 4 a) (octets 4 b) }
{
    a ^ b
}

// The word turned right by 1, 2 or 3 bytes.
#[tactic(auto, using(crate::proofs::WordBytes::turned_right))]
pub fn turned_right(word: u32, bytes: u32) -> u32
    requires { (1 ≤ bytes) × (bytes ≤ 3) }
    ensures { octets 4 result ≡ turned bytes (octets 4 word) }
{
    word.rotate_right(8 * bytes)
}

// The sum of four words, each turned right by one byte more than the one before.
fn turned_sum(words: [u32; 4]) -> u32
    ensures { octets 4 result ≡ looked_up (octets 4) words }
{
    let [a, b, c, d] = words;
    added(
        added(a, turned_right(b, 1)),
        added(turned_right(c, 2), turned_right(d, 3)),
    )
}

// The sum of what `find` finds for one row of each of four columns, each turned right by one byte more than the one before.
fn products<F: Fn(u8) -> u32>(columns: [u32; 4], find: F) -> u32
    requires { F.IsAlwaysCallable find }
    ensures { (g : ℕ → List ℕ) → ((x y : ℕ) → x < 256 → F.post find x y → octets 4 y ≡ g x) → octets 4 result ≡ looked_up g (gathered columns) }
{
    let [a, b, c, d] = columns;
    turned_sum([
        find(byte_in(a, 0)),
        find(byte_in(b, 1)),
        find(byte_in(c, 2)),
        find(byte_in(d, 3)),
    ])
}

// The column of what `put` puts for one row of each of four.
fn replaced<F: Fn(u8) -> u8>(columns: [u32; 4], put: F) -> u32
    requires { F.IsAlwaysCallable put }
    ensures { (g : ℕ → ℕ) → ((x y : ℕ) → x < 256 → F.post put x y → y ≡ g x) → octets 4 result ≡ map g (gathered columns) }
{
    let [a, b, c, d] = columns;
    u32::from_be_bytes([
        put(byte_in(a, 0)),
        put(byte_in(b, 1)),
        put(byte_in(c, 2)),
        put(byte_in(d, 3)),
    ])
}

// The look-ups below go in by closures: the name alone of another crate's function brings no contract with it.

// SubBytes and MixColumns of the column that takes a row from each of four.
pub fn sub_mixed(columns: [u32; 4]) -> u32
    ensures { octets 4 result ≡ mix_columns (sub_bytes (gathered columns)) }
{
    products(columns, |x| sub_mix(x))
}

// SubBytes of the column that takes a row from each of four.
pub fn substituted(columns: [u32; 4]) -> u32
    ensures { octets 4 result ≡ sub_bytes (gathered columns) }
{
    replaced(columns, |x| sub_byte(x))
}

// SubBytes of a column.
#[tactic(auto, unfolding(byte_lists::specs::Numbers::octets))]
pub fn sub_word(word: u32) -> u32
    ensures { octets 4 result ≡ sub_bytes (octets 4 word) }
{
    substituted([word; 4])
}

// InvSubBytes of the column that takes a row from each of four.
pub fn inv_substituted(columns: [u32; 4]) -> u32
    ensures { octets 4 result ≡ inv_sub_bytes (gathered columns) }
{
    replaced(columns, |x| inv_sub_byte(x))
}

// InvMixColumns of a column.
pub fn inv_mixed(column: u32) -> u32
    ensures { octets 4 result ≡ inv_mix_columns (octets 4 column) }
{
    products([column; 4], |x| inv_mix(x))
}
