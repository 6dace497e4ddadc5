// Commands under seal, in blocks, and their answers.
use crate::cards::{Cards, Replies};
use crate::line::{data_of, is_marked, send};
use anyhow::Context;
use sealer::RealSealer;
use sealing::Sealer;
use show::Reply;
use terminal::{Connection, Session};

// The cards with a connection to them, and its session.
#[derive(Drop)]
pub struct Channel<'a, 'b> {
    pub cards: &'a mut Cards<'b>,
    pub connection: Connection,
    pub session: Session,
}

// The last block of a string that was sent, and whether it completed a command. The block is there in both cases.
#[derive(Drop)]
pub struct Sent {
    pub last: Vec<u8>,
    pub complete: bool,
}

impl Channel<'_, '_> {
    // Sends a sealed string, block by block. The loop is over the numbers themselves, here and in `fetch`: a terminal makes a
    // command by its block's number, and the card's answers say where the blocks end.
    pub fn send(&mut self, string: &[u8]) -> anyhow::Result<Sent> {
        let heap = self.cards.rt.alloc();
        let mut last = Vec::new(heap);
        let mut complete = false;
        for number in 0..=255u8 {
            let Some(block) = self.session.block(heap, string, number)? else {
                break;
            };
            let replies = send(self.cards, block.as_slice())?;
            complete = is_marked(replies.left.as_slice());
            last = block;
        }
        Ok(Sent { last, complete })
    }

    // Fetches the answers of both cards, block by block.
    fn fetch(&mut self) -> anyhow::Result<Replies> {
        let heap = self.cards.rt.alloc();
        let mut left = Vec::new(heap);
        let mut right = Vec::new(heap);
        for number in 0..=255u8 {
            let replies = send(self.cards, &self.session.fetch(number))?;
            left.extend_from_slice(data_of(replies.left.as_slice()))?;
            right.extend_from_slice(data_of(replies.right.as_slice()))?;
            if !is_marked(replies.left.as_slice()) && !is_marked(replies.right.as_slice()) {
                break;
            }
        }
        Ok(Replies { left, right })
    }

    // What an application replied to the command of this number, out of its seal.
    fn open(&self, number: u64, string: &mut [u8]) -> anyhow::Result<Vec<u8>> {
        self.connection
            .open(self.cards.rt.alloc(), &RealSealer, number, string)?
            .context("the answer does not open")
    }

    // Fetches the answers to the command of this number, opens them, and shows them.
    pub fn answers(&mut self, number: u64) -> anyhow::Result<Replies> {
        let mut sealed = self.fetch()?;
        let left = self.open(number, sealed.left.as_mut_slice())?;
        let right = self.open(number, sealed.right.as_mut_slice())?;
        let rt = self.cards.rt;
        println!(rt; "  left  opens to {}", Reply(left.as_slice()))?;
        println!(rt; "  right opens to {}", Reply(right.as_slice()))?;
        Ok(Replies { left, right })
    }
}
