// A key as a block, and joined with a byte.
ghost use Rattle.std.specs.Prelude.{◌≡◌, ◌≤◌, length, replicate, nat_lt};
ghost use Rattle.byte_lists.specs.Bytes.{xors};
ghost use Rattle.hmac.specs.Hmac.{filled, block_key};

use byte_lists::join;
use sha256::digest_of;

// The bytes at the front of a block, with zeros behind them.
fn filled_of(bytes: &[u8]) -> [u8; 64]
    requires { length bytes.now ≤ 64 }
    ensures { result ≡ filled bytes.now }
{
    let mut block = [0; 64];
    block[..bytes.len()].copy_from_slice(bytes);
    block
}

// Whether a key is longer than a block.
fn is_long(key: &[u8]) -> bool
    ensures { result ≡ nat_lt 64 (length key.now) }
{
    key.len() > 64
}

// A key as a block; one that is longer than a block stands for its digest.
pub fn block_key_of(key: &[u8]) -> [u8; 64]
    ensures { result ≡ block_key key.now }
{
    if is_long(key) {
        filled_of(&digest_of(key))
    } else {
        filled_of(key)
    }
}

// Each byte of a key joined with this one.
pub fn masked(byte: u8, key: &[u8; 64]) -> [u8; 64]
    ensures { result ≡ xors (replicate 64 byte) key.now }
{
    let mut block = [byte; 64];
    join(&mut block, key);
    block
}
