// The initial permutation of a block and its inverse, on whole words.
ghost use Rattle.std.specs.Prelude.{◌≡◌, ◌%◌};
ghost use Rattle.des_tables.specs.Words.{exchanged, initial_word, final_word};

// The exchanges of the initial permutation in their order: how far, and the mask of what changes places.
const EXCHANGES: [(u32, u64); 5] = [
    (36, 0x0f0f_0f0f),
    (48, 0x0000_ffff),
    (30, 0xcccc_cccc),
    (24, 0xff00_ff00),
    (33, 0x5555_5555),
];

// The bits that the mask marks change places with those `shift` higher, counted modulo 64.
#[tactic(auto, unfolding(des_tables::specs::Words::exchanged))]
fn exchange(x: u64, shift: u32, mask: u64) -> u64
    ensures { result ≡ exchanged (shift % 64) mask x }
{
    let marked = (x.wrapping_shr(shift) ^ x) & mask;
    (x ^ marked) ^ marked.wrapping_shl(shift)
}

// The initial permutation.
pub fn initial(block: u64) -> u64
    ensures { result ≡ initial_word block }
{
    EXCHANGES
        .iter()
        .fold(block, |x, (shift, mask)| exchange(x, *shift, *mask))
}

// Its inverse: the same exchanges from the last to the first.
pub fn last(block: u64) -> u64
    ensures { result ≡ final_word block }
{
    EXCHANGES
        .iter()
        .rev()
        .fold(block, |x, (by, mask)| exchange(x, *by, *mask))
}
