// Cipher block chaining from a block of zeros, in place, for every block cipher.
ghost use Rattle.std.specs.Prelude.{◌≡◌, ℕ, ◌⊎◌, ◌-◌, ◌/◌, ◌%◌, ◌≤◌, ◌++◌, List, length, take, drop, replicate};
ghost use Rattle.cipher.specs.Cbc.{cbc, uncbc, chained, forth, back, itself};
ghost use Rattle.cipher.specs.Links.{Links};

use crate::block::BlockCipher;
use byte_lists::join;

// Runs `link` on each block of n bytes of the text. It is given the block that stands before, at first zeros, and the block
// itself, and leaves in the first what stands before the next one.
fn chain<F: Fn(&mut [u8], &mut [u8])>(text: &mut [u8], n: usize, link: F)
    requires sizes { (n ≡ 8) ⊎ (n ≡ 16) }
    requires whole { length text.old % n ≡ 0 }
    requires takes { (before block : _) → length before.now ≡ n → length block.now ≡ n → F.pre link before block }
    ensures { (out next : List ℕ → List ℕ → List ℕ)
        → Links (F.post link) out next
        → text.new ≡ chained n out next (length text.old / n) (replicate n 0) text.old }
{
    // Of fixed size, as the card has no heap; a block has 8 bytes or 16.
    let mut before = [0u8; 16];
    // Over `chunks_exact_mut` no proof knows what the text is after the loop.
    for at in (0..text.len()).step_by(n) {
        link(&mut before[..n], &mut text[at..at + n]);
    }
}

// A block is joined with the ciphertext before it, and encrypted; it then stands before the next one.
fn link<C: BlockCipher>(cipher: &C, before: &mut [u8], block: &mut [u8])
    requires { (length before.old ≡ C.BLOCK) × (length block.old ≡ C.BLOCK) }
    ensures now { block.new ≡ forth (C.enc cipher.now) before.old block.old }
    ensures next { before.new ≡ forth (C.enc cipher.now) before.old block.old }
{
    join(block, before);
    cipher.encrypt(block);
    before.copy_from_slice(block);
}

// A block is decrypted and joined with the ciphertext before it; as it was, it stands before the next one.
fn unlink<C: BlockCipher>(cipher: &C, before: &mut [u8], block: &mut [u8])
    requires { (length before.old ≡ C.BLOCK) × (length block.old ≡ C.BLOCK) }
    ensures now { block.new ≡ back (C.dec cipher.now) before.old block.old }
    ensures next { before.new ≡ itself before.old block.old }
{
    let n = C::BLOCK;
    // Of fixed size too, of which n bytes count.
    let mut kept = [0u8; 16];
    kept[..n].copy_from_slice(block);
    cipher.decrypt(block);
    join(block, before);
    before.copy_from_slice(&kept[..n]);
}

// Encrypts in place from the byte `from` to the end, in whole blocks. Decrypting gives back what was there. What stands before,
// as a header in the clear, is lent with it, so both say by `from` where the blocks begin.
pub fn cbc_encrypt<C: BlockCipher>(cipher: &C, buf: &mut [u8], from: usize)
    requires { (from ≤ length buf.old) × ((length buf.old - from) % C.BLOCK ≡ 0) }
    ensures is { buf.new ≡ take from buf.old ++ cbc C.BLOCK (C.enc cipher.now) (drop from buf.old) }
    ensures undone { uncbc C.BLOCK (C.dec cipher.now) (drop from buf.new) ≡ drop from buf.old }
{
    chain(
        &mut buf[from..],
        C::BLOCK,
        |before, block| link(cipher, before, block),
    );
}

// Decrypts in place from the byte `from` to the end, in whole blocks. Encrypting gives back what was there.
pub fn cbc_decrypt<C: BlockCipher>(cipher: &C, buf: &mut [u8], from: usize)
    requires { (from ≤ length buf.old) × ((length buf.old - from) % C.BLOCK ≡ 0) }
    ensures is { buf.new ≡ take from buf.old ++ uncbc C.BLOCK (C.dec cipher.now) (drop from buf.old) }
    ensures undone { cbc C.BLOCK (C.enc cipher.now) (drop from buf.new) ≡ drop from buf.old }
{
    chain(
        &mut buf[from..],
        C::BLOCK,
        |before, block| unlink(cipher, before, block),
    );
}
