// The keys of a connection.
ghost use Rattle.std.specs.Prelude.{◌≡◌};
ghost use Rattle.hmac.specs.Expansion.{mac_key, sealer_keys};
ghost use Rattle.terminal.specs.Macs.{material};

use hmac::expand;

// What a connection's secret material is cut into.
#[derive(Clone, Copy)]
pub struct Secrets {
    // The key of its MACs.
    pub mac: [u8; 16],
    // The sealer's keys.
    pub keys: [u8; 40],
}

// The keys that a master's secret and the nonces of both sides make, the card's first.
pub fn derive(secret: &[u8], card_nonce: &[u8], own_nonce: &[u8]) -> Secrets
    ensures mac { result.mac ≡ mac_key (material secret.now card_nonce.now own_nonce.now) }
    ensures keys { result.keys ≡ sealer_keys (material secret.now card_nonce.now own_nonce.now) }
{
    let mut area = [0; 64];
    expand(secret, &[card_nonce, own_nonce], &mut area);
    Secrets {
        mac: *area[0..16].as_array().unwrap(),
        keys: *area[16..56].as_array().unwrap(),
    }
}
