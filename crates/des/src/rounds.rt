// A block through the sixteen rounds.
ghost use Rattle.std.specs.Prelude.{◌≡◌, map};
ghost use Rattle.des_tables.specs.Bits.{bits};
ghost use Rattle.des.specs.Feistel.{halves, crossed, turns};
ghost use Rattle.des.specs.Des.{mixed, crypt, ciphered};

use crate::block::Block;
use crate::octets::{read, written};
use crate::permute::{initial, last};
use crate::round::mix;

// A round for each key, and the halves crossed behind them.
fn rounds(keys: &[u64; 16], start: u64) -> u64
    ensures { bits 64 result ≡ crossed (turns mixed (map (bits 48) keys.now) (halves (bits 64 start))) }
{
    let mut block = Block::cut(start);
    for key in keys {
        block = block.turned(mix(block.right, *key));
    }
    block.crossed()
}

// A word under the round keys.
fn through(keys: &[u64; 16], block: u64) -> u64
    ensures { bits 64 result ≡ crypt (map (bits 48) keys.now) (bits 64 block) }
{
    last(rounds(keys, initial(block)))
}

// A block of eight bytes under the round keys.
pub fn apply(keys: &[u64; 16], block: &[u8; 8]) -> [u8; 8]
    ensures { result ≡ ciphered (map (bits 48) keys.now) block.now }
{
    written(through(keys, read(block)))
}
