// The last block, which a subkey is joined into.
ghost use Rattle.std.specs.Prelude.{◌≡◌, ◌<◌, ◌≤◌, length, ◌==◌, bit_xor, slice_index, slice_set};
ghost use Rattle.byte_lists.specs.Bytes.{xors};
ghost use Rattle.cmac.specs.Cmac.{subkey, filled, masked};

use crate::blocks::BLOCK;
use crate::double::double;
use byte_lists::join;
use cipher::{BlockCipher, Wide};

// Whether the last block is whole; else it is cut short, or empty.
fn is_whole(part: &[u8]) -> bool
    ensures { result ≡ (length part.now == 16) }
{
    part.len() == BLOCK
}

// The subkey for a last block that is whole or not.
fn subkey_for<C: Wide>(cipher: &C, whole: bool) -> [u8; BLOCK]
    ensures { result ≡ subkey (C.enc cipher.now) whole }
{
    let mut block = [0; BLOCK];
    cipher.encrypt(&mut block);
    let once = double(&block);
    if whole { once } else { double(&once) }
}

// Joins the bit 1 behind n bytes into `block`.
fn join_mark(block: &mut [u8; BLOCK], n: usize)
    requires { n < length block.old }
    ensures { block.new ≡ slice_set block.old n (bit_xor (slice_index block.old n) 0x80) }
{
    block[n] ^= 0x80;
}

// Joins the last block, padded where it is not whole, into `block`.
fn join_filled(block: &mut [u8; BLOCK], part: &[u8])
    requires { length part.now ≤ 16 }
    ensures { block.new ≡ xors block.old (filled part.now) }
{
    let n = part.len();
    join(&mut block[0..n], part);
    if !is_whole(part) {
        join_mark(block, n);
    }
}

// The last block with its subkey joined in.
pub fn masked_last<C: Wide>(cipher: &C, part: &[u8]) -> [u8; BLOCK]
    requires { length part.now ≤ 16 }
    ensures { result ≡ masked (C.enc cipher.now) part.now }
{
    let mut block = subkey_for(cipher, is_whole(part));
    join_filled(&mut block, part);
    block
}
