// Fetching an answer, block by block, and discarding it.
ghost use Rattle.std.specs.Prelude.{◌≡◌, None, slice_index_or};
ghost use Rattle.apdu.specs.View.{shape_of};
ghost use Rattle.replies.specs.Blocks.{cut_block};
ghost use Rattle.session.specs.View.{answer_in};
ghost use Rattle.tables.specs.View.{tables_of};
ghost use Rattle.manage.specs.Told.{bytes_of};
ghost use Rattle.manage.specs.View.{core_of};
ghost use Rattle.law.specs.Step.{carries, fetches, discards, enough, block_given};
ghost use Rattle.transact.specs.View.{state_of, ended, told};

use crate::outcome::{lent, taken};
use crate::parts::Parts;
use crate::started::Started;
use apdu::{Body, Status};
use application::Application;
use manage::Told;
use request::{Discard, Fetch};
use sealing::Sealer;
use session::Session;
use table_rows::Row;

impl<S: Sealer, A: Application> Parts<S, A> {
    // P1 + 2: a discard makes the session idle.
    pub fn discard(&mut self, asked: Discard<'_>) -> Status
        ensures step { carries S.seals A.acts (state_of self.old.core (A.contents self.old.application)) (discards (core_of self.old.core) asked.entry.row (shape_of asked.entry.body) (slice_index_or (tables_of self.old.core.tables).connections asked.entry.row None)) ≡ ended self.new.core (A.contents self.new.application) result }
        ensures sealer { self.new.sealer ≡ self.old.sealer }
        ensures application { self.new.application ≡ self.old.application }
    {
        let Some(mut started) = Started::at(&self.core, asked.row) else {
            return Status::NotNow;
        };
        if let Err(status) = started.session.discard(asked.body) {
            return status;
        }
        started.go_on(&mut self.core);
        Status::Done
    }

    // P1 + 1: a block of the answer that a session holds.
    pub fn fetch(&self, asked: Fetch<'_>) -> Told<'_>
        ensures { carries S.seals A.acts (state_of self.now.core (A.contents self.now.application)) (fetches (core_of self.now.core) asked.entry.row asked.entry.number (shape_of asked.entry.body) (slice_index_or (tables_of self.now.core.tables).connections asked.entry.row None)) ≡ told self.now.core (A.contents self.now.application) result }
    {
        let Fetch { row, number, body } = asked;
        let Some(session) = lent(&self.core, row) else {
            return Told::from(Status::NotNow);
        };
        if let Err(status) = session.fetch() {
            return Told::from(status);
        }
        give(session, row, number, body)
    }
}

// Whether a fetch carries Le alone, not below so many bytes.
fn is_enough(len: usize, body: Body<'_>) -> bool
    ensures { result ≡ enough len (shape_of body.entry) }
{
    body.le_alone()
        .is_some_and(|le| len <= usize::from(le.wanted))
}

// Gives a block of the answer that a session holds: one that is absent is refused first, then a wrong length. It takes what was
// asked by parts, since the check finds no type of `Le` in a private function that is given a Fetch whole.
fn give<'a>(session: &'a Session, row: Row, number: u8, body: Body<'_>) -> Told<'a>
    ensures { bytes_of result ≡ block_given row (shape_of body.entry) (cut_block session.now.container (answer_in session.now.talk) number) }
{
    let Some(block) = session.answer_block(number) else {
        return Told::from(Status::WrongParameters);
    };
    if !is_enough(block.bytes.len(), body) {
        return Told::from(Status::WrongLength);
    }
    Told::block(block.bytes, taken(row, block.more))
}
