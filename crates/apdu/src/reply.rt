// Writing a reply: data, then the status word, at the start of a lent buffer. The length is answered beside it: the card has
// no heap, and the buffer is its host's.
ghost use Rattle.std.specs.Prelude.{◌≡◌, ◌+◌, ◌≤◌, [], length};
ghost use Rattle.apdu.specs.Reply.{fronted, reply};

use crate::status::Status;

// Writes the status word alone at the start of the buffer, leaves the rest, and gives the reply's length.
pub fn put_status(buffer: &mut [u8], status: Status) -> usize
    requires { 2 ≤ length buffer.old }
    ensures len { result ≡ length (reply [] status) }
    ensures written { buffer.new ≡ fronted (reply [] status) buffer.old }
{
    let bytes = <[u8; 2]>::from(status);
    buffer[..2].copy_from_slice(&bytes);
    bytes.len()
}

// Writes the data and then the status word at the start of the buffer, leaves the rest, and gives the reply's length.
pub fn put_reply(buffer: &mut [u8], data: &[u8], status: Status) -> usize
    requires { length «data».now + 2 ≤ length buffer.old }
    ensures len { result ≡ length (reply «data».now status) }
    ensures written { buffer.new ≡ fronted (reply «data».now status) buffer.old }
{
    let n = data.len();
    buffer[..n].copy_from_slice(data);
    n + put_status(&mut buffer[n..], status)
}
