// A master, as the terminal knows it.
ghost use Rattle.std.specs.Prelude.{◌≡◌};
ghost use Rattle.hmac.specs.Hmac.{hmac};
ghost use Rattle.terminal.specs.Macs.{mac_of};

use crate::mac::short_mac;
use hmac::mac;

// The identifier that the card gave, and the secret that both sides work out.
#[derive(Clone, Copy)]
pub struct Master {
    id: [u8; 16],
    secret: [u8; 32],
}

impl Master {
    // The master of this identifier under the shared key.
    pub fn new(key: &[u8], id: [u8; 16]) -> Master
        ensures id { result.id ≡ id }
        ensures secret { result.secret ≡ hmac key.now id }
    {
        Master {
            id,
            secret: mac(key, &id),
        }
    }

    // The identifier.
    pub fn id(&self) -> &[u8; 16]
        ensures { result.now ≡ self.now.id }
    {
        &self.id
    }

    // The secret.
    pub fn secret(&self) -> &[u8; 32]
        ensures { result.now ≡ self.now.secret }
    {
        &self.secret
    }

    // The MAC that terminates it.
    pub fn end_mac(&self) -> [u8; 16]
        ensures { result ≡ mac_of self.now.secret self.now.id }
    {
        short_mac(&self.secret, &self.id)
    }
}
