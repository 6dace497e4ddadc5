// The tram is out: fares, a receipt, and the depot's total.
ghost use Rattle.std.specs.Prelude.{◌≤◌, length};

use crate::cards::Replies;
use crate::line::{data_of, send};
use crate::talk::{Channel, Sent};
use anyhow::{Context, ensure};
use fares::Fare;
use sealer::RealSealer;
use sealing::Sealer;
use std::alloc::{AllocError, Global};

// The first and the second fare of the day.
const FIRST: Fare = Fare {
    class: 3,
    amount: 300,
};

const SECOND: Fare = Fare {
    class: 0,
    amount: 250,
};

// Writes the first record of the record file.
const RECEIPT: [u8; 21] = *b"\x00\xDC\x01\x00\x10line 7, 17 Nov. ";

// Asks the fare counter for its sum.
const TOTAL: [u8; 5] = [0x00, 0xCA, 0x00, 0x00, 0x00];

// The string with one bit of its last byte changed.
fn damaged(heap: Global, string: &[u8]) -> anyhow::Result<Vec<u8>> {
    let mut bytes = Vec::from_slice(heap, string)?;
    let last = bytes.as_mut_slice().last_mut().context("an empty string")?;
    *last ^= 1;
    Ok(bytes)
}

// The sum that the fare counter replies.
fn sum_of(reply: &[u8]) -> Option<u64> {
    Some(u64::from_be_bytes(*data_of(reply).as_array()?))
}

impl Channel<'_, '_> {
    // A command under seal. The bounds stand here and at `deliver`: every command is an array, whose length is known where it is
    // made, so a type that carries them would be made for the one call.
    fn seal(&self, command: &[u8]) -> Result<Vec<u8>, AllocError>
        requires least { 2 ≤ length command.now }
        requires most { length command.now ≤ 261 }
    {
        self.connection
            .seal(self.cards.rt.alloc(), &RealSealer, command)
    }

    // Sends a command under seal.
    fn deliver(&mut self, command: &[u8]) -> anyhow::Result<Sent>
        requires least { 2 ≤ length command.now }
        requires most { length command.now ≤ 261 }
    {
        let string = self.seal(command)?;
        self.send(string.as_slice())
    }

    // Notes that a command was accepted; its number.
    fn accept(&mut self, sent: &Sent) -> anyhow::Result<u64> {
        ensure!(sent.complete, "the card did not accept the command");
        let number = self.connection.next();
        self.connection.accepted();
        Ok(number)
    }

    // Notes that a command was accepted, and fetches the answers to it.
    fn answered(&mut self, sent: &Sent) -> anyhow::Result<Replies> {
        let number = self.accept(sent)?;
        self.answers(number)
    }

    // A fare, its last block sent twice: it is booked once.
    pub fn first_fare(&mut self) -> anyhow::Result<()> {
        println!(self.cards.rt; "")?;
        println!(self.cards.rt;
            "A fare of {FIRST}; its last block is sent twice, and it is booked once"
        )?;
        let sent = self.deliver(&FIRST.command())?;
        let _again = send(self.cards, sent.last.as_slice())?;
        let _replies = self.answered(&sent)?;
        Ok(())
    }

    // A fare that is damaged on its way, refused, and sent once more.
    pub fn second_fare(&mut self) -> anyhow::Result<()> {
        println!(self.cards.rt; "")?;
        println!(self.cards.rt;
            "A fare of {SECOND}; one bit is damaged on the way, and it is sent again"
        )?;
        let string = self.seal(&SECOND.command())?;
        let wrong = damaged(self.cards.rt.alloc(), string.as_slice())?;
        let _refused = self.send(wrong.as_slice())?;
        let sent = self.send(string.as_slice())?;
        let _number = self.accept(&sent)?;
        Ok(())
    }

    // A record for the record file, which the fare counter does not know.
    pub fn receipt(&mut self) -> anyhow::Result<()> {
        println!(self.cards.rt; "")?;
        println!(self.cards.rt; "A receipt for the record file")?;
        let sent = self.deliver(&RECEIPT)?;
        let _replies = self.answered(&sent)?;
        Ok(())
    }

    // The depot asks for the sum of the day's fares; then the answer is discarded.
    pub fn total(&mut self) -> anyhow::Result<()> {
        println!(self.cards.rt; "")?;
        println!(self.cards.rt; "The depot asks for the total, and discards the answer")?;
        let sent = self.deliver(&TOTAL)?;
        let replies = self.answered(&sent)?;
        let sum = sum_of(replies.left.as_slice()).context("the card gave no total")?;
        println!(self.cards.rt; "  the total is {sum}")?;
        let _discarded = send(self.cards, &self.session.discard())?;
        Ok(())
    }

    // One command more than the connection may accept.
    pub fn beyond(&mut self) -> anyhow::Result<()> {
        println!(self.cards.rt; "")?;
        println!(self.cards.rt; "One fare more than the connection may carry: it is removed")?;
        let _refused = self.deliver(&FIRST.command())?;
        Ok(())
    }
}
