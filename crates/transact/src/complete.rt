// A complete command.
ghost use Rattle.std.specs.Prelude.{◌≡◌};
ghost use Rattle.session.specs.View.{talk_of};
ghost use Rattle.tables.specs.View.{connection_of, tables_of};
ghost use Rattle.manage.specs.View.{core_of};
ghost use Rattle.law.specs.Associations.{transactions_limit};
ghost use Rattle.law.specs.Session.{before, judged};
ghost use Rattle.law.specs.Tables.{gathering};
ghost use Rattle.law.specs.Step.{carries, judges};
ghost use Rattle.transact.specs.View.{state_of, ended, last_of};

use crate::accepted::{Refusal, accept};
use crate::outcome::taken;
use crate::parts::Parts;
use crate::started::Started;
use apdu::Status;
use application::Application;
use buffer::ROOM;
use sealing::Sealer;

impl<S: Sealer, A: Application> Parts<S, A> {
    // The gathered command is judged: it does not open as it must, and the session goes idle; the limit alone is in the way,
    // and the connection is removed; or it is accepted and counted, the application runs, and its sealed reply waits in the row.
    pub(crate) fn complete(&mut self, started: &Started) -> Status
        requires gathers { talk_of started.now.session.talk ≡ gathering (before (talk_of started.now.session.talk)) (last_of (talk_of started.now.session.talk)) }
        ensures step { carries S.seals A.acts (state_of self.old.core (A.contents self.old.application)) (judges S.seals (core_of self.old.core) started.now.row (connection_of started.now.connection) started.now.session.container (last_of (talk_of started.now.session.talk)) (judged S.seals (connection_of started.now.connection) (transactions_limit (tables_of self.old.core.tables).keys (tables_of self.old.core.tables).masters started.now.connection.master) (before (talk_of started.now.session.talk)))) ≡ ended self.new.core (A.contents self.new.application) result }
        ensures sealer { self.new.sealer ≡ self.old.sealer }
    {
        let limit = self
            .core
            .tables
            .transactions_limit(started.connection.master);
        let joined = started.session.joined();
        // Room of its own, not a store: opening writes in it, and a store lends its bytes for reading alone. (To lend them for
        // writing, a store would have to promise by `Lends` how its array ends.)
        let mut room = [0; ROOM];
        let plain = &mut room[..joined.len()];
        plain.copy_from_slice(joined);
        match accept(&self.sealer, &started.connection, limit, plain) {
            Err(Refusal::Wrong) => started.fail(&mut self.core),
            Err(Refusal::Spent) => started.remove(&mut self.core),
            Ok(token) => {
                let answer = token.settle(
                    &self.sealer,
                    &mut self.application,
                    &started.connection,
                    plain,
                );
                let held = started.answered(answer);
                self.core.tables.put_connection(started.row, held);
                taken(started.row, true)
            }
        }
    }
}
