// A key that was loaded, with its limits.
ghost use Rattle.std.specs.Prelude.{◌≡◌, ◌≤◌, length};
ghost use Rattle.personalise.specs.Limits.{Within};
ghost use Rattle.personalise.specs.Load.{key_of, limited};
ghost use Rattle.personalise.specs.Says.{answered, ref_of, says};

use crate::reference::Reference;
use crate::refusal::Refusal;

// What a good load says of a key. Only the text of a load makes one.
#[derive(Clone, Copy)]
pub struct KeyLoad {
    reference: Reference,
    key: [u8; 32],
    weak: bool,
    masters: u16,
    connections: u32,
    transactions: u64,
}

impl KeyLoad {
    // The key with these limits, where all three are set. They are no struct: the reader of a load hands them on here alone.
    pub(crate) fn limited(
        reference: Reference,
        key: [u8; 32],
        weak: bool,
        masters: Result<u64, Refusal>,
        connections: Result<u64, Refusal>,
        transactions: Result<u64, Refusal>,
    ) -> Result<KeyLoad, Refusal>
        requires masters { Within 65535 masters }
        requires connections { Within 4294967295 connections }
        ensures { answered result ≡ limited (key_of (ref_of reference) key weak) masters connections transactions }
    {
        if [masters, connections, transactions].contains(&Err(Refusal::Malformed)) {
            return Err(Refusal::Malformed);
        }
        Ok(KeyLoad {
            reference,
            key,
            weak,
            masters: u16::try_from(masters?).unwrap(),
            connections: u32::try_from(connections?).unwrap(),
            transactions: transactions?,
        })
    }

    // The name by which the key is asked for: 22 to 68 bytes.
    pub fn reference(&self) -> &[u8]
        ensures value { result.now ≡ (says self.now).ref }
        ensures allowed { (22 ≤ length result.now) × (length result.now ≤ 68) }
    {
        self.reference.as_slice()
    }

    // The key itself.
    pub fn key(&self) -> &[u8; 32]
        ensures { result.now ≡ (says self.now).secret }
    {
        &self.key
    }

    // Whether the key is weak.
    pub fn is_weak(&self) -> bool
        ensures { result ≡ (says self.now).weak }
    {
        self.weak
    }

    // How many masters the key may yield.
    pub fn masters(&self) -> u16
        ensures { result ≡ (says self.now).masters }
    {
        self.masters
    }

    // How many connections each of its masters may yield.
    pub fn connections(&self) -> u32
        ensures { result ≡ (says self.now).connections }
    {
        self.connections
    }

    // How many commands each of their connections may accept.
    pub fn transactions(&self) -> u64
        ensures { result ≡ (says self.now).transactions }
    {
        self.transactions
    }
}
