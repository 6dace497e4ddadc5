// The rounds of the cipher and of its inverse, a column at a time.
ghost use Rattle.std.specs.Prelude.{◌≡◌, ℕ, List};
ghost use Rattle.byte_lists.specs.Bytes.{xors};
ghost use Rattle.byte_lists.specs.Numbers.{octets};
ghost use Rattle.aes.specs.Cipher.{round, final_round, inv_round, inv_final_round};
ghost use Rattle.aes.specs.Steps.{inv_sub_bytes, inv_shift_rows, inv_mix_columns};
ghost use Rattle.aes.specs.Columns.{state_bytes, shifted_columns};
ghost use Rattle.aes.specs.Words.{bytes_of, gathered};

use crate::column::{inv_mixed, inv_substituted, sub_mixed, substituted};
use crate::state::State;

// AddRoundKey, under its name in FIPS 197 and not as `^`.
#[tactic(auto, using(crate::proofs::FourColumns::key_added))]
pub fn add_round_key(s: State, key: &[u32; 4]) -> State
    ensures { state_bytes result ≡ xors (state_bytes s) (bytes_of key.now) }
{
    // By `array::from_fn` the proof leaves open what its four calls give as a list.
    let [a, b, c, d] = s.0;
    State([a ^ key[0], b ^ key[1], c ^ key[2], d ^ key[3]])
}

// ShiftRows, each column as `made` makes it of the four from which it takes a row.
fn shifted<F: Fn([u32; 4]) -> u32>(s: State, made: F) -> State
    requires { F.IsAlwaysCallable made }
    ensures { (g : List ℕ → List ℕ) → ((columns : List ℕ) (y : ℕ) → F.post made columns y → octets 4 y ≡ g (gathered columns)) → state_bytes result ≡ shifted_columns g s }
{
    let [a, b, c, d] = s.0;
    State([
        made([a, b, c, d]),
        made([b, c, d, a]),
        made([c, d, a, b]),
        made([d, a, b, c]),
    ])
}

// The four rounds below are a line each, and each keeps the name and the equation of its step.

// A round: SubBytes, ShiftRows, MixColumns and AddRoundKey.
pub fn forward(s: State, key: &[u32; 4]) -> State
    ensures { state_bytes result ≡ round (bytes_of key.now) (state_bytes s) }
{
    add_round_key(shifted(s, sub_mixed), key)
}

// The last round, without MixColumns.
pub fn last_forward(s: State, key: &[u32; 4]) -> State
    ensures { state_bytes result ≡ final_round (bytes_of key.now) (state_bytes s) }
{
    add_round_key(shifted(s, substituted), key)
}

// InvShiftRows and InvSubBytes. By `shifted` the columns would have to be turned round before and behind.
#[tactic(auto, using(crate::proofs::FourColumns::shifted_back_made))]
fn shifted_back(s: State) -> State
    ensures { state_bytes result ≡ inv_sub_bytes (inv_shift_rows (state_bytes s)) }
{
    let [a, b, c, d] = s.0;
    State([
        inv_substituted([a, d, c, b]),
        inv_substituted([b, a, d, c]),
        inv_substituted([c, b, a, d]),
        inv_substituted([d, c, b, a]),
    ])
}

// InvMixColumns.
#[tactic(auto, using(crate::proofs::FourColumns::mixed_back_made))]
fn mixed_back(s: State) -> State
    ensures { state_bytes result ≡ inv_mix_columns (state_bytes s) }
{
    State(s.0.map(inv_mixed))
}

// A round undone.
pub fn back(s: State, key: &[u32; 4]) -> State
    ensures { state_bytes result ≡ inv_round (bytes_of key.now) (state_bytes s) }
{
    shifted_back(mixed_back(add_round_key(s, key)))
}

// The last round undone.
pub fn first_back(s: State, key: &[u32; 4]) -> State
    ensures { state_bytes result ≡ inv_final_round (bytes_of key.now) (state_bytes s) }
{
    shifted_back(add_round_key(s, key))
}
