// Between the bytes of a block and the state.
ghost use Rattle.std.specs.Prelude.{◌≡◌};
ghost use Rattle.byte_lists.specs.Numbers.{octets};
ghost use Rattle.aes.specs.Columns.{state_bytes};

use crate::state::State;

// The two below are functions of this crate: `map` learns nothing of what a closure gives here, nor another crate's function.

// The word of four bytes.
fn word(bytes: [u8; 4]) -> u32
    ensures { octets 4 result ≡ bytes }
{
    u32::from_be_bytes(bytes)
}

// The four bytes of a word.
#[tactic(auto, using(byte_lists::proofs::Digits::octets_four))]
fn four_of(word: u32) -> [u8; 4]
    ensures { result ≡ octets 4 word }
{
    word.to_be_bytes()
}

// The state that the block makes.
pub fn state_of(block: &[u8; 16]) -> State
    ensures { state_bytes result ≡ block.now }
{
    let columns: &[[u8; 4]; 4] = block.as_chunks::<4>().0.as_array().unwrap();
    State(columns.map(word))
}

// Writes the state into the block.
pub fn write(s: State, block: &mut [u8; 16])
    ensures { block.new ≡ state_bytes s }
{
    block.copy_from_slice(s.0.map(four_of).as_flattened());
}
