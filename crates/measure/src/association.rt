// Associations: a master, a connection and a session, and the codes alone that they contain.
use crate::bench_card::{Host, new_card, send};
use crate::script::{CONTAINER, Channel, Line, Rehearsal};
use crate::suite::AES;
use crate::times::{Times, best_of, timed};
use anyhow::ensure;
use card::{HostRefusal, Powered};
use fares::FareCounter;
use hmac::{expand, mac, mac_joined};
use sealer::RealSealer;

// How many associations a burst has: as many as the card has rows.
pub const BURST: u64 = 4;

// The sum of the lengths of a burst's replies: each time three times a status word alone, then a master, a connection and a
// session, each with its status word.
const REPLIED: usize = 4 * (2 + 25 + 2 + 64 + 2 + 7);

// Sends all commands again. The sum of the lengths of all replies.
fn replay(
    card: &mut Powered<RealSealer, FareCounter>,
    lines: &[Line],
    host: &mut Host,
) -> Result<usize, HostRefusal> {
    lines.iter().try_fold(0usize, |sum, line| {
        Ok(sum.wrapping_add(send(card, line.apdu.as_slice(), &line.random, host)?))
    })
}

// The code over what both sides say of a connection. The terminal makes it of a reply that it has read; here it alone is timed.
fn agreement(key: &[u8], channel: &Channel) -> [u8; 32] {
    mac_joined(
        key,
        &[
            channel.master.id(),
            &AES.offer.nonce,
            &[AES.offer.ciphers, AES.offer.mechanisms],
            channel.connection.id(),
            &channel.nonce,
            &[u8::from(AES.suite.cipher), u8::from(AES.suite.mechanism)],
        ],
    )
}

// The codes of one association: of the master's secret, of the connection's keys, of its agreement and of its start. Whether
// they are those that were sent. By calls of `hmac` and none of the terminal, which does more than the codes that are timed.
fn codes(key: &[u8; 32], channel: &Channel) -> bool {
    let secret = mac(key, channel.master.id());
    let mut area = [0; 64];
    expand(&secret, &[&channel.nonce, &AES.offer.nonce], &mut area);
    let agreement = agreement(&area[0..16], channel);
    let start = mac_joined(&area[0..16], &[channel.connection.id(), &[CONTAINER]]);
    agreement[0..16] == channel.agreement[0..16] && start[0..16] == channel.start[0..16]
}

// The codes of all. How many are those that were sent.
fn all_codes(key: &[u8; 32], channels: &[Channel]) -> u64 {
    channels
        .iter()
        .filter(|channel| codes(key, channel))
        .count() as u64
}

// One burst on a new card: what a rehearsal sent is sent again.
fn burst(rt: &HostRuntime) -> anyhow::Result<Times> {
    let mut rehearsal = Rehearsal::new(rt.alloc())?;
    let mut channels = Vec::new(rt.alloc());
    for _ in 0..BURST {
        channels.push(rehearsal.associate(&AES.offer)?)?;
    }
    let mut card = new_card()?;
    let mut host = Host::new();
    let (replied, card) = timed(rt, || {
        replay(&mut card, rehearsal.lines.as_slice(), &mut host)
    })?;
    let (right, contained) = timed(rt, || all_codes(rehearsal.key(), channels.as_slice()))?;
    ensure!(
        replied? == REPLIED && right == BURST,
        "an association went wrong"
    );
    Ok(Times { card, contained })
}

// The best of so many bursts.
pub fn measure(rt: &HostRuntime, bursts: u32) -> anyhow::Result<Times> {
    best_of(bursts, || burst(rt))
}
