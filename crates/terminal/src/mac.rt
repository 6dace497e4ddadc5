// MACs, as the protocol cuts them.
ghost use Rattle.std.specs.Prelude.{◌≡◌, [], ◌∷◌, ◌++◌, take};
ghost use Rattle.terminal.specs.Macs.{mac_of, agreement};

use crate::offer::Offer;
use hmac::{mac, mac_joined};
use replies::reply::ConnectionReply;

// The first 16 of 32 bytes.
fn cut(whole: &[u8; 32]) -> [u8; 16]
    ensures { result ≡ take 16 whole.now }
{
    *whole.first_chunk().unwrap()
}

// The first 16 bytes of HMAC-SHA-256.
pub fn short_mac(key: &[u8], message: &[u8]) -> [u8; 16]
    ensures { result ≡ mac_of key.now message.now }
{
    cut(&mac(key, message))
}

// The MAC over a connection's identifier and the size of its containers.
pub fn start_mac(key: &[u8], id: &[u8], container: u8) -> [u8; 16]
    ensures { result ≡ mac_of key.now (id.now ++ container ∷ []) }
{
    cut(&mac_joined(key, &[id, &[container]]))
}

// The MAC over all that both sides said of a connection. The card joins the same parts in code of its own: the two sides are
// written apart, so that a slip of one shows at the other.
pub fn agreement_mac<'a>(
    key: &[u8],
    master: &'a [u8],
    offer: &'a Offer,
    reply: &'a ConnectionReply,
) -> [u8; 16]
    ensures { result ≡ mac_of key.now (agreement master.now offer.now reply.now) }
{
    cut(&mac_joined(
        key,
        &[
            master,
            &offer.nonce,
            &[offer.ciphers, offer.mechanisms],
            &reply.id,
            &reply.nonce,
            &[reply.cipher, reply.mechanism],
        ],
    ))
}
