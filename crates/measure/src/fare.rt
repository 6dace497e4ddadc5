// Fares: a sealed command in, its sealed answer out, and the openings and sealings alone.
use crate::bench_card::{Host, send};
use crate::script::{Channel, Rehearsal};
use crate::suite::Case;
use crate::times::{Times, best_of, timed};
use anyhow::{Context, ensure};
use card::{HostRefusal, Powered};
use fares::{Fare, FareCounter};
use hmac::expand;
use sealer::RealSealer;
use sealing::{Direction, Sealer, Suite, Text};
use std::alloc::Global;

// How many fares a burst has: as many as the counter holds.
pub const BURST: u64 = 32;

// What the fare counter says of a fare that it keeps.
const KEPT: [u8; 2] = [0x90, 0x00];

// The fare that the fare counter is told to append.
const FARE: Fare = Fare {
    class: 1,
    amount: 300,
};

// The sealed strings of a burst, in order; in a loop, since each turn also counts the connection on.
fn strings(heap: Global, channel: &Channel) -> anyhow::Result<Vec<Vec<u8>>> {
    let mut connection = channel.connection;
    let mut all = Vec::new(heap);
    for _ in 0..BURST {
        all.push(connection.seal(heap, &RealSealer, &FARE.command())?)?;
        connection.accepted();
    }
    Ok(all)
}

// The commands that carry them.
fn blocks(heap: Global, channel: &Channel, strings: &[Vec<u8>]) -> anyhow::Result<Vec<Vec<u8>>> {
    let blocks = strings.iter().map(|string| {
        let block = channel.session.block(heap, string.as_slice(), 0)?;
        block.context("a sealed fare needs more than one block")
    });
    blocks.collect(heap)?
}

// Sends each block and fetches its answer. The sum of the lengths of all replies.
fn ride(
    card: &mut Powered<RealSealer, FareCounter>,
    blocks: &[Vec<u8>],
    fetch: &[u8],
    host: &mut Host,
) -> Result<usize, HostRefusal> {
    let random = [7; 32];
    blocks.iter().try_fold(0usize, |sum, block| {
        let taken = send(card, block.as_slice(), &random, host)?;
        let fetched = send(card, fetch, &random, host)?;
        Ok(sum.wrapping_add(taken).wrapping_add(fetched))
    })
}

// Opens each string in place and seals an answer to it. The sum of the lengths of all bodies and answers; none where a string
// does not open.
fn seals(
    suite: Suite,
    keys: &[u8; 40],
    strings: &mut [Vec<u8>],
    answer: &mut [u8; 288],
) -> Option<usize> {
    strings.iter_mut().try_fold(0usize, |sum, string| {
        let opened = RealSealer.open(suite, keys, string.as_mut_slice())?;
        let reply = Text {
            direction: Direction::Reply,
            number: opened.number,
            body: &KEPT,
        };
        let sealed = RealSealer.seal(suite, keys, reply, answer);
        Some(sum.wrapping_add(opened.len).wrapping_add(sealed))
    })
}

// The sealer's keys of a channel, which the terminal keeps to itself.
fn keys(channel: &Channel, case: &Case) -> [u8; 40] {
    let mut area = [0; 64];
    expand(
        channel.master.secret(),
        &[&channel.nonce, &case.offer.nonce],
        &mut area,
    );
    *area[16..56].as_array().unwrap()
}

// Whether the card's last answer begins as the last one that was sealed beside it.
fn is_alike(reply: &[u8; 258], answer: &[u8; 288]) -> bool {
    reply[0..24] == answer[0..24]
}

// One burst on a new card.
fn burst(rt: &HostRuntime, case: &Case) -> anyhow::Result<Times> {
    let heap = rt.alloc();
    let mut rehearsal = Rehearsal::new(heap)?;
    let channel = rehearsal.associate(&case.offer)?;
    let keys = keys(&channel, case);
    let mut strings = strings(heap, &channel)?;
    let blocks = blocks(heap, &channel, strings.as_slice())?;
    let fetch = channel.session.fetch(0);
    let mut host = Host::new();
    let mut answer = [0; 288];
    let (replied, card) = timed(rt, || {
        ride(&mut rehearsal.card, blocks.as_slice(), &fetch, &mut host)
    })?;
    let (sealed, contained) = timed(rt, || {
        seals(case.suite, &keys, strings.as_mut_slice(), &mut answer)
    })?;
    let alike = is_alike(&host.reply, &answer);
    ensure!(
        replied? == case.replied && sealed == Some(case.sealed) && alike,
        "a fare went wrong"
    );
    Ok(Times { card, contained })
}

// The best of so many bursts.
pub fn measure(rt: &HostRuntime, case: &Case, bursts: u32) -> anyhow::Result<Times> {
    best_of(bursts, || burst(rt, case))
}
