// Eight words: the hash value between blocks, and the letters of the rounds.
ghost use Rattle.std.specs.Prelude.{◌≡◌};

// The eight words, in the letters of the standard.
#[derive(Clone, Copy)]
pub struct Eight {
    pub a: u32,
    pub b: u32,
    pub c: u32,
    pub d: u32,
    pub e: u32,
    pub f: u32,
    pub g: u32,
    pub h: u32,
}

// The eight words in their order.
impl From<Eight> for [u32; 8] {
    ghost use Rattle.compression.specs.Compression.{in_order};

    ghost from_gives = { λ v words. words ≡ in_order v };

    fn from(v: Eight) -> [u32; 8] {
        [v.a, v.b, v.c, v.d, v.e, v.f, v.g, v.h]
    }
}
