// What a block cipher is.
ghost use Rattle.std.specs.Prelude.{◌≡◌, ℕ, ◌⊎◌, List, length};
ghost use Rattle.cipher.specs.Permutes.{Permutes};

// A keyed cipher on blocks of 8 or 16 bytes. Its meaning is two functions, and each undoes the other.
pub trait BlockCipher {
    // The length of a block.
    const BLOCK: usize;

    ghost BLOCK: { ℕ };

    ghost enc: { Self → List ℕ → List ℕ };

    ghost dec: { Self → List ℕ → List ℕ };

    // Encrypts the block in place: a slice, as a type parameter's constant gives no array its length.
    fn encrypt(&self, block: &mut [u8])
        requires { length block.old ≡ BLOCK }
        ensures { block.new ≡ enc self.now block.old };

    // Decrypts the block in place.
    fn decrypt(&self, block: &mut [u8])
        requires { length block.old ≡ BLOCK }
        ensures { block.new ≡ dec self.now block.old };

    ghost sizes: { (BLOCK ≡ 8) ⊎ (BLOCK ≡ 16) };

    ghost permutes: { (k : Self) → Permutes BLOCK (enc k) (dec k) };
}
