// A connection, as the terminal knows it.
ghost use Rattle.std.specs.Prelude.{◌≡◌, ◌+◌, [], ◌∷◌, ◌++◌, MatchOption};
ghost use Rattle.sealing.specs.Suites.{cipher_byte, mechanism_byte};
ghost use Rattle.hmac.specs.Expansion.{mac_key, sealer_keys};
ghost use Rattle.terminal.specs.Macs.{mac_of, agreement, material};
ghost use Rattle.terminal.specs.Agreed.{Agreed, Unagreed, Named, Unnamed};

use crate::mac::{agreement_mac, short_mac, start_mac};
use crate::master::Master;
use crate::offer::Offer;
use crate::secrets::{Secrets, derive};
use replies::reply::ConnectionReply;
use sealing::Suite;
use secret::same;

// Its identifier, its suite and keys, and how many of its commands the card has accepted.
#[derive(Clone, Copy)]
pub struct Connection {
    pub(crate) id: [u8; 16],
    pub(crate) suite: Suite,
    pub(crate) secrets: Secrets,
    pub(crate) count: u64,
}

impl Connection {
    // The connection that a card's reply makes under a master, where the reply names a suite and its MAC is right.
    pub fn agreed(master: &Master, offer: &Offer, reply: &ConnectionReply) -> Option<Connection>
        ensures { MatchOption result (Unagreed master.now offer.now reply.now) (λ c. Agreed master.now offer.now reply.now c) }
    {
        let suite = Suite::try_from([reply.cipher, reply.mechanism]).ok()?;
        let secrets = derive(master.secret(), &reply.nonce, &offer.nonce);
        let mac = agreement_mac(&secrets.mac, master.id(), offer, reply);
        same(&mac, &reply.mac).then_some(Connection {
            id: reply.id,
            suite,
            secrets,
            count: 0,
        })
    }

    // The identifier.
    pub fn id(&self) -> &[u8; 16]
        ensures { result.now ≡ self.now.id }
    {
        &self.id
    }

    // The number of its next command.
    pub fn next(&self) -> u64
        ensures { result ≡ self.now.count }
    {
        self.count
    }

    // The MAC that starts its session with containers of this size.
    pub fn start_mac(&self, container: u8) -> [u8; 16]
        ensures { result ≡ mac_of self.now.secrets.mac (self.now.id ++ container ∷ []) }
    {
        start_mac(&self.secrets.mac, &self.id, container)
    }

    // The MAC that terminates it.
    pub fn end_mac(&self) -> [u8; 16]
        ensures { result ≡ mac_of self.now.secrets.mac self.now.id }
    {
        short_mac(&self.secrets.mac, &self.id)
    }
}
