// A block of a session's command.
ghost use Rattle.std.specs.Prelude.{◌≡◌, None, ◌==◌, slice_index_or};
ghost use Rattle.apdu.specs.View.{shape_of};
ghost use Rattle.session.specs.View.{talk_of};
ghost use Rattle.tables.specs.View.{connection_of, tables_of};
ghost use Rattle.manage.specs.View.{core_of};
ghost use Rattle.law.specs.Session.{before};
ghost use Rattle.law.specs.Tables.{gathering};
ghost use Rattle.law.specs.Step.{carries, completes, blocks};
ghost use Rattle.transact.specs.View.{state_of, ended, last_of};

use crate::outcome::{said, taken};
use crate::parts::Parts;
use crate::started::Started;
use apdu::Status;
use application::Application;
use request::Block;
use sealing::Sealer;
use session::Heard;

impl<S: Sealer, A: Application> Parts<S, A> {
    // A block that was joined to those before: the last one completes the command, any other is kept.
    fn join(&mut self, started: &Started, p2: u8) -> Status
        requires { talk_of started.now.session.talk ≡ gathering (before (talk_of started.now.session.talk)) (last_of (talk_of started.now.session.talk)) }
        ensures step { carries S.seals A.acts (state_of self.old.core (A.contents self.old.application)) (completes S.seals (core_of self.old.core) started.now.row (connection_of started.now.connection) started.now.session.container (last_of (talk_of started.now.session.talk)) (before (talk_of started.now.session.talk)) (p2 == 0)) ≡ ended self.new.core (A.contents self.new.application) result }
        ensures sealer { self.new.sealer ≡ self.old.sealer }
    {
        if p2 == 0 {
            return self.complete(started);
        }
        started.go_on(&mut self.core);
        taken(started.row, false)
    }

    // P1 + 0: a block in the session of a row. It wants a started session, and is joined, or repeats the last one, or is refused.
    pub fn block(&mut self, asked: Block<'_>) -> Status
        ensures step { carries S.seals A.acts (state_of self.old.core (A.contents self.old.application)) (blocks S.seals (core_of self.old.core) asked.entry.row asked.entry.p2 (shape_of asked.entry.body) (slice_index_or (tables_of self.old.core.tables).connections asked.entry.row None)) ≡ ended self.new.core (A.contents self.new.application) result }
        ensures sealer { self.new.sealer ≡ self.old.sealer }
    {
        let Some(mut started) = Started::at(&self.core, asked.row) else {
            return Status::NotNow;
        };
        // Matched apart from what follows: an arm `Ok(heard)` behind `Ok(Heard::Joined)` would not know that nothing was joined.
        let heard = match started.session.block(asked.p2, asked.body) {
            Ok(heard) => heard,
            Err(status) => return status,
        };
        match heard {
            Heard::Joined => self.join(&started, asked.p2),
            _ => said(asked.row, heard),
        }
    }
}
