// Comparing two secrets, over all their bytes.
ghost use Rattle.std.specs.Prelude.{◌≡◌, Decides};
ghost use Rattle.std.specs.List.{fold, zip};
ghost use Rattle.std.specs.Int.Bits.{bit_or, bit_xor};

// The differences of the bytes of both, joined.
fn differences(a: &[u8], b: &[u8]) -> u8
    ensures { result ≡ fold (λ d p. bit_or d (bit_xor p.0 p.1)) 0 (zip a.now b.now) }
{
    a.iter().zip(b).fold(0, |d, (x, y)| d | (*x ^ *y))
}

// Whether the two hold the same bytes. Every byte is looked at, also after a difference; where their lengths differ, none is.
pub fn same(a: &[u8], b: &[u8]) -> bool
    ensures { Decides result (a.now ≡ b.now) }
{
    a.len() == b.len() && differences(a, b) == 0
}
