// CMAC, and its check of a message.
ghost use Rattle.std.specs.Prelude.{◌≡◌, ℕ, List};
ghost use Rattle.std.proofs.Common.{subst, lit≤};
ghost use Rattle.cmac.specs.Cmac.{before_last, cmac};
ghost use Rattle.byte_lists.specs.Bytes.{Block};
ghost use Rattle.cmac.specs.Checks.{block_cmac};

use crate::absorb::absorb;
use crate::blocks::BLOCK;
use crate::last::masked_last;
use byte_lists::join;
use cipher::{BlockCipher, Wide};
use integrity::Integrity;

// CMAC under the key of a cipher.
#[derive(Drop, Clone, Copy)]
pub struct Cmac<C> {
    cipher: C,
}

impl<C: Wide> Cmac<C> {
    // CMAC under the cipher's key.
    pub fn new(cipher: C) -> Cmac<C>
        ensures { result.cipher ≡ cipher }
    {
        Cmac { cipher }
    }
}

// How many blocks stand before the last one of a message of that length.
fn blocks_before_last(len: usize) -> usize
    ensures { result ≡ before_last len }
{
    len.saturating_sub(1) / BLOCK
}

impl<C: Wide> Integrity for Cmac<C> {
    const LEN: usize = BLOCK;

    ghost LEN = { 16 };

    ghost check = { λ k message. cmac (C.enc k.cipher) message };

    ghost bounded = { (lit≤ tt, lit≤ tt) };

    ghost fixed = { λ k message h.
        let E : List ℕ → List ℕ = C.enc k.cipher in
        let Keeps : ℕ → Type 0 = λ n. (b : List ℕ) → Block n b → Block n (E b) in
        block_cmac E (subst Keeps C.wide (C.permutes k.cipher).forth) message h };

    fn write_check(&self, message: &[u8], out: &mut [u8]) {
        let (front, last) = message.split_at(BLOCK * blocks_before_last(message.len()));
        let mut state = [0; BLOCK];
        absorb(&self.cipher, &mut state, front);
        join(&mut state, &masked_last(&self.cipher, last));
        self.cipher.encrypt(&mut state);
        out.copy_from_slice(&state);
    }
}
