// The functions on words.
ghost use Rattle.std.specs.Prelude.{◌≡◌};
ghost use Rattle.compression.specs.Words.{ch, maj, Σ0, Σ1, σ0, σ1};

// Ch: where `x` has a bit 1 the bit of `y`, else that of `z`.
pub fn choose(x: u32, y: u32, z: u32) -> u32
    ensures { result ≡ ch x y z }
{
    (x & y) ^ (!x & z)
}

// Maj: the bit that two of the three have.
pub fn majority(x: u32, y: u32, z: u32) -> u32
    ensures { result ≡ maj x y z }
{
    (x & y) ^ (x & z) ^ (y & z)
}

// The four below are each one line, as the standard writes them; one function of their three numbers would ask for the numbers'
// bounds besides, and leave four calls of it.

// Σ0 of the rounds.
pub fn upper_zero(x: u32) -> u32
    ensures { result ≡ Σ0 x }
{
    x.rotate_right(2) ^ x.rotate_right(13) ^ x.rotate_right(22)
}

// Σ1 of the rounds.
pub fn upper_one(x: u32) -> u32
    ensures { result ≡ Σ1 x }
{
    x.rotate_right(6) ^ x.rotate_right(11) ^ x.rotate_right(25)
}

// σ0 of the schedule.
pub fn lower_zero(x: u32) -> u32
    ensures { result ≡ σ0 x }
{
    x.rotate_right(7) ^ x.rotate_right(18) ^ (x >> 3)
}

// σ1 of the schedule.
pub fn lower_one(x: u32) -> u32
    ensures { result ≡ σ1 x }
{
    x.rotate_right(17) ^ x.rotate_right(19) ^ (x >> 10)
}
