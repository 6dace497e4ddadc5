// A block in two halves of 32 bits.
ghost use Rattle.std.specs.Prelude.{◌≡◌, ◌+◌, ◌*◌, ◌/◌, ◌%◌, ◌^◌, bit_xor};

// The left and the right half.
#[derive(Clone, Copy)]
pub struct Block {
    pub left: u32,
    pub right: u32,
}

impl Block {
    // A word cut into its halves; no `From`, as cutting is a step of the standard with a name of its own.
    pub fn cut(word: u64) -> Block
        ensures left { result.left ≡ word / 2 ^ 32 }
        ensures right { result.right ≡ word % 2 ^ 32 }
    {
        Block {
            left: (word / 0x1_0000_0000) as u32,
            right: (word % 0x1_0000_0000) as u32,
        }
    }

    // One round: the right half goes to the left, and `mixed` is joined into the left one.
    pub fn turned(self, mixed: u32) -> Block
        ensures left { result.left ≡ self.right }
        ensures right { result.right ≡ bit_xor self.left mixed }
    {
        Block {
            left: self.right,
            right: self.left ^ mixed,
        }
    }

    // The word with the right half before the left: a step of DES, and so no conversion.
    pub fn crossed(self) -> u64
        ensures { result ≡ self.right * 2 ^ 32 + self.left }
    {
        self.right as u64 * 0x1_0000_0000 + self.left as u64
    }
}
