// The cipher and its inverse on a block, with an expanded key.
ghost use Rattle.std.specs.Prelude.{◌≡◌, ℕ, ◌<◌, length, slice_index_or, [], List};
ghost use Rattle.aes.specs.Cipher.{round_key, encrypted, decrypted};
ghost use Rattle.aes.specs.Words.{bytes_of};

use crate::round::{add_round_key, back, first_back, forward, last_forward};
use crate::transfer::{state_of, write};

// The eleven round keys of the expanded key. A slice, as of an array of arrays that is lent the proof does not know the length.
#[tactic(auto, using(crate::proofs::Rounds::round_key_words))]
fn round_keys(keys: &[u32; 44]) -> &[[u32; 4]]
    ensures eleven { length result.now ≡ 11 }
    ensures each { (r : ℕ) → r < 11 → bytes_of (slice_index_or result.now r []) ≡ round_key (bytes_of keys.now) r }
{
    keys.as_chunks::<4>().0
}

// Cipher, in place.
pub fn encrypt_block(keys: &[u32; 44], block: &mut [u8; 16])
    ensures { block.new ≡ encrypted (bytes_of keys.now) block.old }
{
    let round_keys = round_keys(keys);
    let mut s = add_round_key(state_of(block), &round_keys[0]);
    for key in &round_keys[1..10] {
        s = forward(s, key);
    }
    write(last_forward(s, &round_keys[10]), block);
}

// InvCipher, in place. Its first and its last step and the order of the keys are its own, so it has its own text.
pub fn decrypt_block(keys: &[u32; 44], block: &mut [u8; 16])
    ensures { block.new ≡ decrypted (bytes_of keys.now) block.old }
{
    let round_keys = round_keys(keys);
    let mut s = first_back(state_of(block), &round_keys[10]);
    for key in round_keys[1..10].iter().rev() {
        s = back(s, key);
    }
    write(add_round_key(s, &round_keys[0]), block);
}
