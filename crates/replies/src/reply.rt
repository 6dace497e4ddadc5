//! The card's replies, each with its values by name, and the object that it is.
ghost use Rattle.std.specs.Prelude.{◌≡◌};
ghost use Rattle.buffer.specs.Held.{held};
ghost use Rattle.replies.specs.Reply.{discovery_objects, master_objects, connection_objects, inside, reply_object};

use crate::tag;
use crate::write::push;
use buffer::Store;
use objects::tag::{CONNECTION, MASTER, OBJECT};

/// The most bytes that a reply's object has.
pub const LONGEST: usize = 62;

// The most bytes that it has inside.
const INSIDE: usize = 60;

/// What the card says of itself to whoever asks.
#[derive(Clone, Copy)]
pub struct DiscoveryReply {
    pub required: bool,
    pub failures: u8,
}

/// A new master.
#[derive(Clone, Copy)]
pub struct MasterReply {
    pub id: [u8; 16],
}

/// A new connection. Cipher and mechanism are the bytes that go over the line: a reader may meet some that name no suite.
#[derive(Clone, Copy)]
pub struct ConnectionReply {
    pub id: [u8; 16],
    pub nonce: [u8; 16],
    pub cipher: u8,
    pub mechanism: u8,
    pub mac: [u8; 16],
}

/// A reply, with its values.
#[derive(Clone, Copy)]
pub enum Reply {
    Discovery(DiscoveryReply),
    Master(MasterReply),
    Connection(ConnectionReply),
    /// A started session, with its byte.
    Session(u8),
}

// No trait for the three `objects`: each is called by one arm alone.
impl DiscoveryReply {
    fn objects(&self) -> Store<INSIDE>
        ensures { held result ≡ discovery_objects self.now }
    {
        let mut objects = Store::new();
        push(&mut objects, tag::ENDPOINT, &[0xFF]);
        push(&mut objects, tag::REQUIRED, &[u8::from(self.required)]);
        push(&mut objects, tag::FAILURES, &[self.failures]);
        objects
    }
}

impl MasterReply {
    fn objects(&self) -> Store<INSIDE>
        ensures { held result ≡ master_objects self.now }
    {
        let mut objects = Store::new();
        push(&mut objects, MASTER, &self.id);
        push(&mut objects, tag::KEY_MECHANISM, &[0x01]);
        objects
    }
}

impl ConnectionReply {
    fn objects(&self) -> Store<INSIDE>
        ensures { held result ≡ connection_objects self.now }
    {
        let mut objects = Store::new();
        push(&mut objects, CONNECTION, &self.id);
        push(&mut objects, tag::CARD_NONCE, &self.nonce);
        push(&mut objects, tag::CIPHER, &[self.cipher]);
        push(&mut objects, tag::MECHANISM, &[self.mechanism]);
        push(&mut objects, tag::CONNECTION_MAC, &self.mac);
        objects
    }
}

impl Reply {
    /// The reply's object.
    #[inline(always)]
    pub fn object(&self) -> Store<LONGEST>
        ensures { held result ≡ reply_object self.now }
    {
        let mut object = Store::new();
        push(&mut object, OBJECT, self.objects().as_slice());
        object
    }

    fn objects(&self) -> Store<INSIDE>
        ensures { held result ≡ inside self.now }
    {
        match self {
            Reply::Discovery(reply) => reply.objects(),
            Reply::Master(reply) => reply.objects(),
            Reply::Connection(reply) => reply.objects(),
            Reply::Session(session) => {
                let mut objects = Store::new();
                push(&mut objects, tag::SESSION, &[*session]);
                objects
            }
        }
    }
}
