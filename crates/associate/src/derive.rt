// What a new master and a new connection are made of.
ghost use Rattle.std.specs.Prelude.{◌≡◌};
ghost use Rattle.law.specs.Associations.{new_master, id_of, nonce_of, material};
ghost use Rattle.law.specs.Associate.{new_connection};
ghost use Rattle.law.specs.Hashes.{keyed};
ghost use Rattle.tables.specs.View.{at_of, key_of, master_of, connection_of};
ghost use Rattle.associate.specs.Said.{cut};

use crate::lent::Lent;
use hmac::{expand, mac};
use sealing::Suite;
use tables::{At, Connection, Key, Master};

// The two below cut the random bytes in halves: a line each, and each has its word of the rules.

// The identifier that random bytes make.
pub fn identifier(random: &[u8; 32]) -> [u8; 16]
    ensures { result ≡ id_of random.now }
{
    *random[..16].as_array().unwrap()
}

// The nonce that random bytes make.
pub fn nonce(random: &[u8; 32]) -> [u8; 16]
    ensures { result ≡ nonce_of random.now }
{
    *random[16..32].as_array().unwrap()
}

// The new master under a key.
pub fn new_master(key: &At<Key>, random: &[u8; 32]) -> Master
    ensures { master_of result ≡ new_master keyed random.now key.now.row (key_of key.now.item) }
{
    let id = identifier(random);
    Master {
        id,
        secret: mac(key.item.load.key(), &id),
        key: usize::from(key.row),
        count: 0,
    }
}

// Writes the bytes that a connection's keys are cut from.
fn material(master: &Master, random: &[u8; 32], nonce: &[u8; 16], area: &mut [u8; 64])
    ensures { area.new ≡ material keyed (master_of master.now) random.now nonce.now }
{
    expand(&master.secret, &[&random[16..32], nonce], area);
}

// The new connection under a master. Its keys are worked out in the area.
pub fn new_connection(
    master: &At<Master>,
    suite: Suite,
    nonce: &[u8; 16],
    lent: Lent<'_>,
) -> Connection
    ensures { connection_of result ≡ new_connection keyed lent.entry.random.now nonce.now suite (at_of master_of master.now) }
{
    let Lent { random, area } = lent;
    material(&master.item, random, nonce, area);
    unstarted(identifier(random), usize::from(master.row), suite, area)
}

// A connection that is not started, with its keys cut from the material.
fn unstarted(id: [u8; 16], master: usize, suite: Suite, material: &[u8; 64]) -> Connection
    ensures { connection_of result ≡ cut id master suite material.now }
{
    Connection {
        id,
        master,
        suite,
        mac: *material[..16].as_array().unwrap(),
        keys: *material[16..56].as_array().unwrap(),
        count: 0,
        session: None,
    }
}
