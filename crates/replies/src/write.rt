//! Writing objects, one behind the other, in fixed memory. A terminal writes its own on the heap, which the card lacks.
ghost use Rattle.std.specs.Prelude.{◌≡◌, ◌+◌, ◌<◌, ◌≤◌, ◌++◌, length};
ghost use Rattle.buffer.specs.Held.{held};
ghost use Rattle.replies.specs.Reply.{tagged};

use buffer::Store;

/// Writes one more object behind those that are there.
pub fn push<const N: usize>(objects: &mut Store<N>, tag: u8, value: &[u8])
    requires short { length value.now < 256 }
    requires room { length (held objects.old) + (2 + length value.now) ≤ N }
    ensures { held objects.new ≡ held objects.old ++ tagged tag value.now }
{
    objects.append(&[tag, value.len() as u8]).unwrap();
    objects.append(value).unwrap();
}
