// Integrity mechanisms: what one is.
#![tactic(auto)]

ghost use Rattle.std.specs.Prelude.{◌≡◌, List, ℕ, ◌≤◌, length};
ghost use Rattle.byte_lists.specs.Bytes.{Bytes, Block};

// Turns bytes into a check whose length the mechanism's kind fixes. Its meaning is a function from the message to its check.
pub trait Integrity {
    // The length of a check.
    const LEN: usize;

    ghost LEN: { ℕ };

    ghost check: { Self → List ℕ → List ℕ };

    // Writes the check of the message into `out`: a slice, as a type parameter's constant gives no array its length.
    fn write_check(&self, message: &[u8], out: &mut [u8])
        requires { length out.old ≡ LEN }
        ensures { out.new ≡ check self.now message.now };

    ghost bounded: { (1 ≤ LEN) × (LEN ≤ 16) };

    ghost fixed: { (k : Self) (message : List ℕ) → Bytes message → Block LEN (check k message) };
}
