// Writing the frame of a text.
ghost use Rattle.std.specs.Prelude.{◌≡◌, ◌+◌, ◌%◌, ◌≤◌, ◌⊎◌, ◌++◌, length, take, drop, replicate};
ghost use Rattle.sealing.specs.Lent.{Seals};
ghost use Rattle.sealing.specs.Sealing.{text};
ghost use Rattle.frame.specs.Frame.{frame, front};

use crate::read::in_blocks;
use byte_lists::put;
use integrity::Integrity;
use sealing::Direction;

// Writes direction, number, length and body at the start of `out`, and answers where they end.
fn put_front(direction: Direction, number: u64, body: &[u8], out: &mut [u8]) -> usize
    requires most { length body.now ≤ 261 }
    requires room { 288 ≤ length out.old }
    ensures end { result ≡ 11 + length body.now }
    ensures bytes { out.new ≡ front (text direction number body.now) ++ drop (length (front (text direction number body.now))) out.old }
{
    let len = body.len() as u16;
    put(out, 0, &[u8::from(direction)]);
    put(out, 1, &number.to_be_bytes());
    put(out, 9, &len.to_be_bytes());
    put(out, 11, body);
    11 + body.len()
}

// Writes the check over the first `end` bytes behind them, and answers where it ends.
fn put_check<I: Integrity>(mechanism: &I, out: &mut [u8], end: usize) -> usize
    requires { end + I.LEN ≤ length out.old }
    ensures end { result ≡ end + I.LEN }
    ensures long { length (I.check mechanism.now (take end out.old)) ≡ I.LEN }
    ensures bytes { out.new ≡ take end out.old ++ (I.check mechanism.now (take end out.old) ++ drop (end + I.LEN) out.old) }
{
    let tag = I::LEN;
    let (front, behind) = out.split_at_mut(end);
    mechanism.write_check(front, &mut behind[..tag]);
    end + tag
}

// Writes so many zeros from the byte `at` on.
fn put_zeros(out: &mut [u8], at: usize, count: usize)
    requires { at + count ≤ length out.old }
    ensures { out.new ≡ take at out.old ++ (replicate count 0 ++ drop (at + count) out.old) }
{
    out[at..at + count].fill(0);
}

// Not a `sealing::Text`: that has two bytes of body at least, and a frame needs none, so the type would ask more of callers.
// Writes a text's frame at the start of `out`, leaves the rest, and answers the frame's length.
pub fn write_frame<I: Integrity>(
    mechanism: &I,
    block: usize,
    direction: Direction,
    number: u64,
    body: &[u8],
    out: &mut [u8],
) -> usize
    requires block { (block ≡ 8) ⊎ (block ≡ 16) }
    requires most { length body.now ≤ 261 }
    requires room { 288 ≤ length out.old }
    ensures blocks { result % block ≡ 0 }
    ensures short { result ≤ 288 }
    ensures frame { Seals (frame block (I.check mechanism.now) (text direction number body.now)) out.old out.new result }
{
    let end = put_front(direction, number, body, out);
    let checked = put_check(mechanism, out, end);
    let whole = in_blocks(checked, block);
    put_zeros(out, checked, whole - checked);
    whole
}
