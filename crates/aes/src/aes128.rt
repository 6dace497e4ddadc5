// AES-128 under a key.
ghost use Rattle.std.specs.Prelude.{◌≡◌, refl};
ghost use Rattle.aes.specs.KeyExpansion.{key_expansion};
ghost use Rattle.aes.specs.Cipher.{encrypted, decrypted, aes_encrypt, aes_decrypt};
ghost use Rattle.aes.specs.Words.{bytes_of};
ghost use Rattle.aes.specs.Parts.{bytes_of_words};
ghost use Rattle.std.proofs.Common.{inr};
ghost use Rattle.aes.specs.Undo.{encrypted_block, decrypted_block, decrypted_encrypted, encrypted_decrypted};

use crate::blocks::{decrypt_block, encrypt_block};
use crate::expansion::expand;
use cipher::{BlockCipher, Wide};

// A key, expanded.
#[derive(Clone, Copy)]
pub struct Aes128 {
    keys: [u32; 44],
}

impl Aes128 {
    // The cipher under a key.
    #[tactic(auto, unfolding(crate::specs::Cipher::aes_encrypt, crate::specs::Cipher::aes_decrypt))]
    pub fn new(key: &[u8; 16]) -> Aes128
        ensures expands { bytes_of result.keys ≡ key_expansion key.now }
        ensures encrypts { encrypted (bytes_of result.keys) ≡ aes_encrypt key.now }
        ensures decrypts { decrypted (bytes_of result.keys) ≡ aes_decrypt key.now }
    {
        Aes128 { keys: expand(key) }
    }
}

impl BlockCipher for Aes128 {
    const BLOCK: usize = 16;

    ghost BLOCK = { 16 };

    ghost enc = { λ c b. encrypted (bytes_of c.keys) b };

    ghost dec = { λ c b. decrypted (bytes_of c.keys) b };

    ghost sizes = { inr refl };

    ghost permutes = { λ k.
        let w = bytes_of k.keys in
        let h = bytes_of_words k.keys in
        record { forth = encrypted_block w h; back = decrypted_block w h; undoes = decrypted_encrypted w h; redoes = encrypted_decrypted w h } };

    fn encrypt(&self, block: &mut [u8]) {
        encrypt_block(&self.keys, block.as_mut_array().unwrap());
    }

    fn decrypt(&self, block: &mut [u8]) {
        decrypt_block(&self.keys, block.as_mut_array().unwrap());
    }
}

impl Wide for Aes128 {
    ghost wide = { refl };
}
