// Lent memory for key material, zero again when it is given back.
ghost use Rattle.std.specs.Prelude.{◌≡◌, length, replicate};

// Lent bytes that are zero, all of them, when the value goes: at the end of its block, and on every way out of it.
pub struct WorkArea<'a>(pub &'a mut [u8]);

impl Drop for WorkArea<'_> {
    // Writes zero into each byte.
    fn drop(self)
        ensures { self.exit.0.now ≡ replicate (length self.entry.0.now) 0 }
    {
        self.0.fill(0);
        let WorkArea(_) = self;
    }
}
