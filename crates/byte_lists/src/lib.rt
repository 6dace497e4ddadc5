// Bytes: exclusive or in place.
#![tactic(auto)]

ghost use Rattle.std.specs.Prelude.{◌≡◌, ◌+◌, ◌≤◌, ◌++◌, length, take, drop};
ghost use Rattle.byte_lists.specs.Bytes.{xors};

// Joins `with` into `block` by exclusive or, byte by byte.
pub fn join(block: &mut [u8], with: &[u8])
    requires { length block.old ≡ length with.now }
    ensures { block.new ≡ xors block.old with.now }
{
    // Over `iter_mut().zip(with)` no proof knows what the block is after the loop.
    for (i, byte) in block.iter_mut().enumerate() {
        *byte ^= with[i];
    }
}

// Writes `part` into the buffer from the byte `at` on, and leaves what stands before and behind it.
pub fn put(buffer: &mut [u8], at: usize, part: &[u8])
    requires { at + length part.now ≤ length buffer.old }
    ensures { buffer.new ≡ take at buffer.old ++ (part.now ++ drop (at + length part.now) buffer.old) }
{
    buffer[at..at + part.len()].copy_from_slice(part);
}
