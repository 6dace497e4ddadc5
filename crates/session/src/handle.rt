// A started session at a block, a fetch or a discard.
ghost use Rattle.std.specs.Prelude.{◌≡◌, true, [], Some};
ghost use Rattle.apdu.specs.View.{shape_of};
ghost use Rattle.law.specs.Session.{before};
ghost use Rattle.law.specs.Tables.{started};
ghost use Rattle.session.specs.View.{talk_of, session_of, KeepsAnswer};
ghost use Rattle.session.specs.Heard.{heard, turns, block, fetch, discard};

use crate::event::Heard;
use crate::gather::contents;
use crate::state::{Block, Part, Session, Talk};
use apdu::{Body, Status};
use buffer::Buffer;

impl Session {
    // The first block of a command, which drops an answer that is held; refused, it changes nothing.
    fn begin(&mut self, p2: u8, body: Body<'_>) -> Result<Heard, Status>
        requires { before (talk_of self.old.talk) ≡ [] }
        ensures heard { result ≡ (turns self.old.container (talk_of self.old.talk) p2 (shape_of body.entry) true).0 }
        ensures after { session_of (Some self.new) ≡ started self.old.container (turns self.old.container (talk_of self.old.talk) p2 (shape_of body.entry) true).1 }
        ensures answer { KeepsAnswer self.old.talk self.new.talk }
    {
        let Some(data) = contents(self.container, body) else {
            return Err(Status::WrongLength);
        };
        let joined = Buffer::from_slice(data);
        let last = Block { p2, bytes: joined };
        self.talk = Talk::Gathering(Part { joined, last });
        Ok(Heard::Joined)
    }

    // A block, by state: gathering joins it, and an answered session knows the block that completed its command. P2 and body are
    // two arguments, since the `Block` of a request has a row beside them, which a session does not know.
    pub fn block(&mut self, p2: u8, body: Body<'_>) -> Result<Heard, Status>
        ensures heard { result ≡ (heard self.old.container (talk_of self.old.talk) (block p2 (shape_of body.entry))).0 }
        ensures after { session_of (Some self.new) ≡ started self.old.container (heard self.old.container (talk_of self.old.talk) (block p2 (shape_of body.entry))).1 }
        ensures answer { KeepsAnswer self.old.talk self.new.talk }
    {
        match &mut self.talk {
            Talk::Gathering(part) => part.take(self.container, p2, body),
            Talk::Answered(held) if held.last.comes_again(p2, body) => Ok(Heard::Repeated(true)),
            Talk::Idle | Talk::Answered(_) => self.begin(p2, body),
        }
    }

    // A fetch wants an answer that is held, and changes nothing. Heard is answered here and by a discard too, though each has one
    // case of it: what is heard of all three is one function of the rules.
    pub fn fetch(&self) -> Result<Heard, Status>
        ensures { result ≡ (heard self.now.container (talk_of self.now.talk) fetch).0 }
    {
        match self.talk {
            Talk::Answered(_) => Ok(Heard::Gives),
            Talk::Idle | Talk::Gathering(_) => Err(Status::NotNow),
        }
    }

    // A discard drops what is held; with data or Le it is refused and changes nothing.
    pub fn discard(&mut self, body: Body<'_>) -> Result<Heard, Status>
        ensures heard { result ≡ (heard self.old.container (talk_of self.old.talk) (discard (shape_of body.entry))).0 }
        ensures after { session_of (Some self.new) ≡ started self.old.container (heard self.old.container (talk_of self.old.talk) (discard (shape_of body.entry))).1 }
        ensures answer { KeepsAnswer self.old.talk self.new.talk }
    {
        let Body::Bare = body else {
            return Err(Status::WrongLength);
        };
        self.talk = Talk::Idle;
        Ok(Heard::Discarded)
    }
}
