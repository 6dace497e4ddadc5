// The two cards side by side: a fare counter on the left, a record file on the right.
use crate::random::random;
use anyhow::{Context, anyhow, ensure};
use card::LoadRefusal;
use fares::FareCounter;
use pair::{Answer, Call, CommandCall, Done, Pair, Ran, run};
use records::RecordFile;
use sealer::RealSealer;
use std::alloc::Global;

// What a byte holds before a call that may write it.
const FILL: u8 = 0xA5;

// What the two cards reply to one command.
#[derive(Drop)]
pub struct Replies {
    pub left: Vec<u8>,
    pub right: Vec<u8>,
}

// The cards, how many commands they were sent, and where the day is shown.
#[derive(Drop)]
pub struct Cards<'a> {
    pub rt: &'a HostRuntime,
    pair: Pair<RealSealer, FareCounter, RecordFile>,
    sent: u64,
}

// Two new cards that require the channel.
fn new_pair() -> Pair<RealSealer, FareCounter, RecordFile> {
    Pair::new(
        RealSealer,
        RealSealer,
        FareCounter::new(),
        RecordFile::new(),
        true,
    )
}

// What a card answers to a load.
fn loaded(done: &Done) -> anyhow::Result<Result<(), LoadRefusal>> {
    match done.answer {
        Answer::Loaded(answer) => Ok(answer),
        _ => Err(anyhow!("the card takes no load")),
    }
}

// Whether the card's power went on or off.
fn powered(done: &Done) -> anyhow::Result<()> {
    ensure!(
        done.answer == Answer::Powered,
        "the card's power is so already"
    );
    Ok(())
}

// The reply that a card writes to its buffer.
fn reply(heap: Global, done: &Done) -> anyhow::Result<Vec<u8>> {
    let Answer::Replied(Ok(len)) = done.answer else {
        return Err(anyhow!("the card takes no command"));
    };
    let bytes = done
        .buffer
        .as_slice()
        .get(..len)
        .context("a reply longer than its buffer")?;
    Ok(bytes.to_vec(heap)?)
}

impl<'a> Cards<'a> {
    // Two new cards that require the channel.
    pub fn new(rt: &'a HostRuntime) -> Cards<'a> {
        Cards {
            rt,
            pair: new_pair(),
            sent: 0,
        }
    }

    // Makes one call to both cards.
    fn call(&mut self, call: &Call<'_>) -> anyhow::Result<(Done, Done)> {
        let pair = std::mem::replace(&mut self.pair, new_pair());
        let Ran {
            pair,
            mut left,
            mut right,
        } = run(pair, &[*call], FILL, self.rt.alloc())?;
        self.pair = pair;
        left.pop()
            .zip(right.pop())
            .context("a call without an answer")
    }

    // Loads a key into both cards; what they answer.
    pub fn load(&mut self, text: &[u8]) -> anyhow::Result<Result<(), LoadRefusal>> {
        let (left, right) = self.call(&Call::Load(text))?;
        let _right = loaded(&right)?;
        loaded(&left)
    }

    // Turns both cards' power on or off, as the call says.
    fn turn(&mut self, power: Call<'_>) -> anyhow::Result<()> {
        let (left, right) = self.call(&power)?;
        powered(&left)?;
        powered(&right)
    }

    // Powers both cards on.
    pub fn power_on(&mut self) -> anyhow::Result<()> {
        self.turn(Call::PowerOn)
    }

    // Powers both cards off.
    pub fn power_off(&mut self) -> anyhow::Result<()> {
        self.turn(Call::PowerOff)
    }

    // Sends a command to both cards.
    pub fn send(&mut self, command: &[u8]) -> anyhow::Result<Replies> {
        let random = random(self.sent);
        self.sent = self.sent.wrapping_add(1);
        let (left, right) = self.call(&Call::Command(CommandCall {
            apdu: command,
            random: &random,
            buffer: 258,
            work: 64,
        }))?;
        Ok(Replies {
            left: reply(self.rt.alloc(), &left)?,
            right: reply(self.rt.alloc(), &right)?,
        })
    }
}
