// The expansion of a key.
ghost use Rattle.std.specs.Prelude.{◌≡◌, ℕ, List, [], ◌∷◌, ◌++◌};
ghost use Rattle.std.specs.List.{flat_map};
ghost use Rattle.hmac.specs.Hmac.{hmac};
ghost use Rattle.hmac.specs.Keyed.{Keyed};
ghost use Rattle.hmac.specs.Expansion.{expanded};

use crate::code::Hmac;

// One string of an expansion: the code of the string before it, a seed in parts, and its own number.
fn string(code: Hmac, before: &[u8], seed: &[&[u8]], number: u8) -> [u8; 32]
    ensures { (key : List ℕ) → Keyed code key [] → result ≡ hmac key (before.now ++ (flat_map (λ part. part.now) seed.now ++ number ∷ [])) }
{
    let mut next = code;
    next.update(before);
    next.update_all(seed);
    next.update(&[number]);
    next.finish()
}

// Writes the 64 bytes T1 ‖ T2 of a key and of a seed in parts. T1 has nothing before it, and T2 has T1.
// Into the caller's memory, and no array as an answer: the caller has it wiped.
pub fn expand(key: &[u8], seed: &[&[u8]], area: &mut [u8; 64])
    ensures { area.new ≡ expanded key.now (flat_map (λ part. part.now) seed.now) }
{
    let code = Hmac::new(key);
    area[0..32].copy_from_slice(&string(code, &[], seed, 1));
    let next = string(code, &area[0..32], seed, 2);
    area[32..64].copy_from_slice(&next);
}
