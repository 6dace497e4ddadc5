// Gathering a command: blocks are joined in turn.
ghost use Rattle.std.specs.Prelude.{◌≡◌};
ghost use Rattle.std.specs.Option.{option_map};
ghost use Rattle.apdu.specs.View.{shape_of};
ghost use Rattle.law.specs.Session.{repeats, in_turn};
ghost use Rattle.law.specs.Tables.{answered};
ghost use Rattle.session.specs.View.{block_of, talk_of};
ghost use Rattle.session.specs.Heard.{contents, heard, block};
ghost use Rattle.session.specs.declared.state.Talk.TheVariants.{Gathering};

use crate::event::Heard;
use crate::state::{Block, Part};
use apdu::{Body, Status};

impl Block {
    // Whether a block with this P2 and body is this one come again.
    pub fn comes_again(&self, p2: u8, body: Body<'_>) -> bool
        ensures { result ≡ repeats (answered (block_of self.now)) p2 (shape_of body.entry) }
    {
        body.data_alone()
            .is_some_and(|data| self.is(p2, data.bytes))
    }
}

// The bytes of a block: data alone, of container size at most.
pub fn contents<'a>(container: u8, body: Body<'a>) -> Option<&'a [u8]>
    ensures { option_map (λ x. x.now) result ≡ contents container (shape_of body.entry) }
{
    let bytes = body.data_alone()?.bytes;
    (bytes.len() <= usize::from(container)).then_some(bytes)
}

impl Part {
    // Whether this P2 is the next one: it falls by one with each block.
    fn is_next(&self, p2: u8) -> bool
        ensures { result ≡ in_turn (talk_of (Gathering self.now)) p2 }
    {
        u16::from(p2) + 1 == u16::from(self.last.p2)
    }

    // Joins a block. Each check leaves with its status word, in the order of the rules; refused, a block changes nothing.
    pub fn take(&mut self, container: u8, p2: u8, body: Body<'_>) -> Result<Heard, Status>
        ensures heard { result ≡ (heard container (talk_of (Gathering self.old)) (block p2 (shape_of body.entry))).0 }
        ensures after { talk_of (Gathering self.new) ≡ (heard container (talk_of (Gathering self.old)) (block p2 (shape_of body.entry))).1 }
    {
        if self.last.comes_again(p2, body) {
            return Ok(Heard::Repeated(false));
        }
        if !self.is_next(p2) {
            return Err(Status::WrongParameters);
        }
        let Some(data) = contents(container, body) else {
            return Err(Status::WrongLength);
        };
        if self.joined.append(data).is_err() {
            return Err(Status::WrongLength);
        }
        self.last = Block::of(p2, data);
        Ok(Heard::Joined)
    }
}
