// The reply that confirms a new connection.
ghost use Rattle.std.specs.Prelude.{◌≡◌, Some};
ghost use Rattle.replies.specs.Reply.{reply_object};
ghost use Rattle.law.specs.Associations.{mac_of};
ghost use Rattle.law.specs.Associate.{new_connection, suite_reply};
ghost use Rattle.tables.specs.View.{at_of, master_of, connection_of};
ghost use Rattle.law.specs.Hashes.{keyed};
ghost use Rattle.associate.specs.Said.{said, confirmed};

use crate::derive::{new_connection, nonce};
use crate::lent::Lent;
use hmac::mac_joined;
use objects::request::ConnectionRequest;
use replies::reply::{ConnectionReply, Reply};
use sealing::Suite;
use tables::{At, Connection, Master};

// The new connection under a master, and the reply that confirms it.
pub fn confirmed_connection(
    master: &At<Master>,
    suite: Suite,
    request: &ConnectionRequest<'_>,
    lent: Lent<'_>,
) -> (Connection, Reply)
    ensures connection { connection_of result.0 ≡ new_connection keyed lent.entry.random.now request.now.nonce.now suite (at_of master_of master.now) }
    ensures reply { reply_object result.1 ≡ suite_reply keyed lent.entry.random.now request.now.master.now request.now.nonce.now request.now.ciphers request.now.mechanisms (at_of master_of master.now) (Some suite) }
{
    let random = lent.random;
    let connection = new_connection(master, suite, request.nonce, lent);
    let reply = confirm(&connection, request, random);
    (connection, reply)
}

// The reply of a new connection, with the code over what both sides have said.
fn confirm(connection: &Connection, request: &ConnectionRequest<'_>, random: &[u8; 32]) -> Reply
    ensures { result ≡ confirmed connection.now.id connection.now.suite connection.now.mac request.now random.now }
{
    let suite = connection.suite;
    Reply::Connection(ConnectionReply {
        id: connection.id,
        nonce: nonce(random),
        cipher: u8::from(suite.cipher),
        mechanism: u8::from(suite.mechanism),
        mac: connection_mac(&connection.mac, request, random, suite),
    })
}

// The code over what both sides have said, under the connection's key. (A terminal makes the same in code of its own: each side
// is written from the rules.)
fn connection_mac(
    key: &[u8],
    request: &ConnectionRequest<'_>,
    random: &[u8; 32],
    suite: Suite,
) -> [u8; 16]
    ensures { result ≡ mac_of keyed key.now (said request.now random.now suite) }
{
    let ConnectionRequest {
        master,
        nonce,
        ciphers,
        mechanisms,
    } = *request;
    let code = mac_joined(
        key,
        &[
            &master[..],
            &nonce[..],
            &[ciphers, mechanisms],
            &random[..16],
            &random[16..32],
            &[u8::from(suite.cipher), u8::from(suite.mechanism)],
        ],
    );
    *code[..16].as_array().unwrap()
}
