// A command's reply as the bytes of its object.
ghost use Rattle.std.specs.Prelude.{◌≡◌};
ghost use Rattle.buffer.specs.Held.{held};
ghost use Rattle.replies.specs.Reply.{reply_object};
ghost use Rattle.associate.specs.Outcome.{replied, ended, sent};

use apdu::Status;
use buffer::Buffer;
use replies::reply::Reply;

// The object of a reply, or the status word in place of it.
pub fn with_object(reply: Result<Reply, Status>) -> Result<Buffer, Status>
    ensures { sent result ≡ replied reply }
{
    reply.map(|reply| object(&reply))
}

// No object: nothing is replied to a termination.
pub fn without_object(end: Result<(), Status>) -> Result<Buffer, Status>
    ensures { sent result ≡ ended end }
{
    end.map(|()| Buffer::new())
}

// The bytes of a reply's object. The room in which it is made is paid for where it is made alone.
#[inline(never)]
pub fn object(reply: &Reply) -> Buffer
    ensures { held result ≡ reply_object reply.now }
{
    Buffer::from_slice(reply.object().as_slice())
}
