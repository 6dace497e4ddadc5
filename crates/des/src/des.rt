// DES under one key, as a block cipher.
ghost use Rattle.std.specs.Prelude.{◌≡◌, ℕ, List, map, refl};
ghost use Rattle.byte_lists.specs.Bytes.{Block as ByteBlock};
ghost use Rattle.des.specs.Des.{encrypts, decrypts, des_encrypt, des_decrypt, SameButParity};
ghost use Rattle.des_tables.specs.Bits.{bits};
ghost use Rattle.des.specs.Permutation.{ciphered_permutes};
ghost use Rattle.std.proofs.Common.{inl};

use crate::octets::read;
use crate::rounds::apply;
use crate::schedule::expand;
use cipher::BlockCipher;

// The sixteen round keys of a key, 48 bits in each.
#[derive(Clone, Copy)]
pub struct Des {
    keys: [u64; 16],
}

impl Des {
    // DES under a key of any eight bytes; the parity bits, the lowest of each byte, are ignored. It is called and not put into its
    // caller: a triple makes three, and would have the places of three expansions on the stack at once.
    #[inline(never)]
    pub fn new(key: &[u8; 8]) -> Des
        ensures encrypts { (b : List ℕ) → encrypts result.keys b ≡ des_encrypt key.now b }
        ensures decrypts { (b : List ℕ) → decrypts result.keys b ≡ des_decrypt key.now b }
        ensures parity { (other : List ℕ) → ByteBlock 8 other → SameButParity other key.now → (b : List ℕ) → (des_encrypt other b ≡ encrypts result.keys b) × (des_decrypt other b ≡ decrypts result.keys b) }
    {
        Des {
            keys: expand(read(key)),
        }
    }
}

impl BlockCipher for Des {
    const BLOCK: usize = 8;

    ghost BLOCK = { 8 };

    ghost enc = { λ d b. encrypts d.keys b };

    ghost dec = { λ d b. decrypts d.keys b };

    ghost sizes = { inl refl };

    ghost permutes = { λ d. ciphered_permutes (map (bits 48) d.keys) };

    fn encrypt(&self, block: &mut [u8]) {
        let block = block.as_mut_array().unwrap();
        *block = apply(&self.keys, block);
    }

    fn decrypt(&self, block: &mut [u8]) {
        let mut keys = self.keys;
        keys.reverse();
        let block = block.as_mut_array().unwrap();
        *block = apply(&keys, block);
    }
}
