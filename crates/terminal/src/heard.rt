// Reading the card's replies: an object is a reply where it is, byte for byte, what the card writes for it. The values are
// cut out at their places and not read one by one: the comparison sees each tag and length.
ghost use Rattle.std.specs.Prelude.{◌≡◌, ℕ, Decides, MatchOption};
ghost use Rattle.replies.specs.Reply.{reply_object};
ghost use Rattle.terminal.specs.Heard.{IsMaster, IsConnection, IsSession};

use replies::reply::{ConnectionReply, MasterReply, Reply};
use secret::same;

// Whether an object is this reply.
fn is_reply(object: &[u8], reply: Reply) -> bool
    ensures { Decides result (object.now ≡ reply_object reply) }
{
    same(object, reply.object().as_slice())
}

// The identifier of a new master.
pub fn read_master(object: &[u8]) -> Option<MasterReply>
    ensures { MatchOption result ((m : MasterReply) → IsMaster object.now m → ⊥) (λ m. IsMaster object.now m) }
{
    let object: &[u8; 23] = object.as_array()?;
    let reply = MasterReply {
        id: *object[4..20].as_array().unwrap(),
    };
    is_reply(object, Reply::Master(reply)).then_some(reply)
}

// What a card says of a new connection.
pub fn read_connection(object: &[u8]) -> Option<ConnectionReply>
    ensures { MatchOption result ((c : ConnectionReply) → IsConnection object.now c → ⊥) (λ c. IsConnection object.now c) }
{
    let object: &[u8; 62] = object.as_array()?;
    let reply = ConnectionReply {
        id: *object[4..20].as_array().unwrap(),
        nonce: *object[22..38].as_array().unwrap(),
        cipher: object[40],
        mechanism: object[43],
        mac: *object[46..62].as_array().unwrap(),
    };
    is_reply(object, Reply::Connection(reply)).then_some(reply)
}

// The byte of a started session.
pub fn read_session(object: &[u8]) -> Option<u8>
    ensures { MatchOption result ((s : ℕ) → IsSession object.now s → ⊥) (λ s. IsSession object.now s) }
{
    let object: &[u8; 5] = object.as_array()?;
    let session = object[4];
    is_reply(object, Reply::Session(session)).then_some(session)
}
