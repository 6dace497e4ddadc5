// One block into eight words.
ghost use Rattle.std.specs.Prelude.{◌≡◌, ◌<◌, ◌≤◌, take};
ghost use Rattle.std.specs.List.{fold, zip};
ghost use Rattle.compression.specs.Compression.{words as parsed, scheduled, extended, first_sum, second_sum, round_of, rounds_by, rounds as turned, sums as added, compressed};

use crate::letters::Eight;
use crate::tables::constants;
use crate::words::{choose, lower_one, lower_zero, majority, upper_one, upper_zero};

// Writes the sixteen words of a block to the front of a schedule, each of four bytes with the highest first. By their places:
// of a `zip` with `iter_mut` no proof knows what it leaves, and as a mapped array they would be made elsewhere and copied here, in
// a quarter more time.
fn parse(block: &[u8; 64], w: &mut [u32; 64])
    ensures { take 16 w.new ≡ parsed 16 block.now }
{
    for (t, four) in block.as_chunks().0.iter().enumerate() {
        w[t] = u32::from_be_bytes(*four);
    }
}

// The word `t` of a schedule, from those before it.
fn next_word(w: &[u32; 64], t: usize) -> u32
    requires { (16 ≤ t) × (t < 64) }
    ensures { result ≡ scheduled w.now t }
{
    lower_one(w[t - 2])
        .wrapping_add(w[t - 7])
        .wrapping_add(lower_zero(w[t - 15]))
        .wrapping_add(w[t - 16])
}

// Writes the other 48 words of a schedule behind its first sixteen; each is made of four before it, named by their places.
fn extend(w: &mut [u32; 64])
    ensures { w.new ≡ extended 48 (take 16 w.old) }
{
    for t in 16..64usize {
        w[t] = next_word(w, t);
    }
}

// T1, the sum that `e` gains.
fn first_of(k: u32, w: u32, v: Eight) -> u32
    ensures { result ≡ first_sum k w v }
{
    v.h.wrapping_add(upper_one(v.e))
        .wrapping_add(choose(v.e, v.f, v.g))
        .wrapping_add(k)
        .wrapping_add(w)
}

// T2, the sum that `a` has besides.
fn second_of(v: Eight) -> u32
    ensures { result ≡ second_sum v }
{
    upper_zero(v.a).wrapping_add(majority(v.a, v.b, v.c))
}

// One round, with its constant and its word.
#[tactic(auto, unfolding(crate::specs::Compression::round_of))]
fn round(k: u32, w: u32, v: Eight) -> Eight
    ensures { result ≡ round_of k w v }
{
    let first = first_of(k, w, v);
    let second = second_of(v);
    Eight {
        a: first.wrapping_add(second),
        b: v.a,
        c: v.b,
        d: v.c,
        e: v.d.wrapping_add(first),
        f: v.e,
        g: v.f,
        h: v.g,
    }
}

// Eight rounds with their constants and words. After eight each letter is where it was, so that none is moved: one fold over all
// 64 takes a quarter more time.
fn eight_rounds(k: &[u32; 8], w: &[u32; 8], v: Eight) -> Eight
    ensures { result ≡ rounds_by k.now w.now v }
{
    k.iter().zip(w).fold(v, |v, (k, w)| round(*k, *w, v))
}

// The rounds over parts of eight, from the front.
fn rounds_over(constants: &[[u32; 8]], words: &[[u32; 8]], v: Eight) -> Eight
    ensures { result ≡ fold (λ x p. rounds_by p.0 p.1 x) v (zip constants.now words.now) }
{
    constants
        .iter()
        .zip(words)
        .fold(v, |x, (k, w)| eight_rounds(k, w, x))
}

// The 64 rounds over a schedule.
fn rounds(w: &[u32; 64], v: Eight) -> Eight
    ensures { result ≡ turned 64 w.now v }
{
    rounds_over(constants().as_chunks().0, w.as_chunks().0, v)
}

// The sums of eight words with eight others. Letter by letter: by way of arrays it is no shorter, since the letters come back.
#[tactic(auto, unfolding(crate::specs::Compression::sums))]
fn add(u: Eight, v: Eight) -> Eight
    ensures { result ≡ added u v }
{
    Eight {
        a: u.a.wrapping_add(v.a),
        b: u.b.wrapping_add(v.b),
        c: u.c.wrapping_add(v.c),
        d: u.d.wrapping_add(v.d),
        e: u.e.wrapping_add(v.e),
        f: u.f.wrapping_add(v.f),
        g: u.g.wrapping_add(v.g),
        h: u.h.wrapping_add(v.h),
    }
}

// The eight words after one more block of 64 bytes.
pub fn compress(v: Eight, block: &[u8; 64]) -> Eight
    ensures { result ≡ compressed v block.now }
{
    let mut w = [0; 64];
    parse(block, &mut w);
    extend(&mut w);
    add(v, rounds(&w, v))
}
