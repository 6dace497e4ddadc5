// Three of one kind make another cipher: encrypt, decrypt, encrypt.
ghost use Rattle.std.specs.Prelude.{◌≡◌, ℕ, List};
ghost use Rattle.byte_lists.specs.Bytes.{Block};
ghost use Rattle.cipher.specs.Triple.{in_turn};
ghost use Rattle.cipher.specs.Permuting.{after, turned};

use crate::block::BlockCipher;

// Three ciphers of one kind, each with its own key.
#[derive(Clone, Copy)]
pub struct Triple<C> {
    first: C,
    second: C,
    third: C,
}

impl<C: BlockCipher> Triple<C> {
    // The triple of three ciphers. Three equal ones make the single cipher.
    pub fn new(first: C, second: C, third: C) -> Triple<C>
        ensures keys { (result.first ≡ first) × (result.second ≡ second) × (result.third ≡ third) }
        ensures single { first ≡ second → second ≡ third → (b : List ℕ) → Block C.BLOCK b → in_turn (C.enc result.first) (C.dec result.second) (C.enc result.third) b ≡ C.enc first b }
    {
        Triple {
            first,
            second,
            third,
        }
    }
}

impl<C: BlockCipher> BlockCipher for Triple<C> {
    const BLOCK: usize = C::BLOCK;

    ghost BLOCK = { C.BLOCK };

    ghost enc = { λ t. in_turn (C.enc t.first) (C.dec t.second) (C.enc t.third) };

    ghost dec = { λ t. in_turn (C.dec t.third) (C.enc t.second) (C.dec t.first) };

    ghost sizes = { C.sizes };

    ghost permutes = { λ k.
        let laws = C.permutes in
        after (after (laws k.first) (turned (laws k.second))) (laws k.third) };

    fn encrypt(&self, block: &mut [u8]) {
        self.first.encrypt(block);
        self.second.decrypt(block);
        self.third.encrypt(block);
    }

    fn decrypt(&self, block: &mut [u8]) {
        self.third.decrypt(block);
        self.second.encrypt(block);
        self.first.decrypt(block);
    }
}
