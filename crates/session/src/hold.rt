// Sessions as they are made, and the answer that one holds.
ghost use Rattle.std.specs.Prelude.{◌≡◌, ◌≤◌, [], length, if◌then◌else◌, Some, IfSome};
ghost use Rattle.std.specs.Option.{option_map};
ghost use Rattle.buffer.specs.Held.{held};
ghost use Rattle.law.specs.Session.{before};
ghost use Rattle.law.specs.Step.{holds_talk};
ghost use Rattle.law.specs.Tables.{started, idle, answered};
ghost use Rattle.replies.specs.Blocks.{seen, cut_block};
ghost use Rattle.session.specs.View.{block_of, talk_of, answer_in, session_of};
ghost use Rattle.session.specs.declared.state.Talk.TheVariants.{Idle};
ghost use Rattle.session.specs.Heard.{completed_as};

use crate::state::{Block, Held, Session, Talk};
use buffer::Buffer;
use replies::block::answer_block;

impl Session {
    // A session that was just started: idle.
    pub fn started(container: u8) -> Session
        ensures session { session_of (Some result) ≡ started container idle }
        ensures answer { answer_in result.talk ≡ [] }
        ensures idle { result.talk ≡ Idle }
    {
        Session {
            container,
            talk: Talk::Idle,
        }
    }

    // A session that holds the answer to the command which this block completed.
    pub fn answered(container: u8, answer: Buffer, last: Block) -> Session
        ensures session { session_of (Some result) ≡ started container (answered (block_of last)) }
        ensures answer { answer_in result.talk ≡ held answer }
    {
        Session {
            container,
            talk: Talk::Answered(Held { answer, last }),
        }
    }

    // The block of this number of the answer that is held, if the answer goes so far. The container's size is a byte.
    #[tactic(auto, using(crate::proofs::Cut::block_within))]
    pub fn answer_block(&self, number: u8) -> Option<replies::block::Block<'_>>
        ensures block { option_map seen result ≡ cut_block self.now.container (answer_in self.now.talk) number }
        ensures within { IfSome result (λ b. length b.bytes.now ≤ 255) }
    {
        match &self.talk {
            Talk::Idle | Talk::Gathering(_) => None,
            Talk::Answered(held) => answer_block(held.answer.as_slice(), self.container, number),
        }
    }

    // The blocks of a command that is gathered, joined; empty where none is.
    pub fn joined(&self) -> &[u8]
        ensures bytes { result.now ≡ before (talk_of self.now.talk) }
        ensures within { length result.now ≤ 288 }
    {
        match &self.talk {
            Talk::Gathering(part) => part.joined.as_slice(),
            Talk::Idle | Talk::Answered(_) => &[],
        }
    }

    // The gathered command is answered: this is its answer. An idle session stays so.
    pub fn complete(&mut self, answer: Buffer)
        ensures session { session_of (Some self.new) ≡ started self.old.container (completed_as (talk_of self.old.talk)) }
        ensures answer { answer_in self.new.talk ≡ (if holds_talk (talk_of self.new.talk) then held answer else []) }
    {
        match &mut self.talk {
            Talk::Idle => {}
            Talk::Gathering(part) => {
                let last = part.last;
                self.talk = Talk::Answered(Held { answer, last });
            }
            Talk::Answered(held) => held.answer = answer,
        }
    }
}
