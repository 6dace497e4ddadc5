// What becomes of a session's row, and the status word that says so.
ghost use Rattle.std.specs.Prelude.{◌≡◌, ◌+◌, ◌*◌, ◌<◌, true, false, IfSome, None, slice_index_or};
ghost use Rattle.apdu.specs.declared.status.Status.TheVariants as sw;
ghost use Rattle.buffer.specs.Held.{held};
ghost use Rattle.session.specs.View.{talk_of, answer_in, answer_of};
ghost use Rattle.session.specs.Heard.{completed_as};
ghost use Rattle.tables.specs.View.{connection_of, tables_of, Keeps};
ghost use Rattle.manage.specs.View.{core_of, Said};
ghost use Rattle.law.specs.Tables.{idle, started, unstarted, with_session, without_connection};
ghost use Rattle.law.specs.Step.{says, put, failed, talks, flag, holds_talk};
ghost use Rattle.transact.specs.View.{said, session_at, LentAt, StartedAt};

use crate::started::Started;
use apdu::Status;
use buffer::Buffer;
use manage::Core;
use session::{Heard, Session};
use table_rows::Row;
use tables::Connection;

// 92 and row × 2, one higher or not.
pub fn taken(row: Row, higher: bool) -> Status
    ensures { result ≡ sw.Taken (row * 2 + flag higher) }
{
    Status::Taken(u8::from(row) * 2 + u8::from(higher))
}

// What is said of an event that changes nothing but the session.
pub fn said(row: Row, heard: Heard) -> Status
    ensures { result ≡ said row heard }
{
    match heard {
        Heard::Repeated(completed) => taken(row, completed),
        Heard::Joined => taken(row, false),
        Heard::Gives => taken(row, true),
        Heard::Discarded => Status::Done,
    }
}

// The started session of a row, lent, where `Started::at` copies it: a fetch changes nothing, and gives a part of it.
pub(crate) fn lent(core: &Core, row: Row) -> Option<&Session>
    ensures none { result ≡ None → session_at (slice_index_or (tables_of core.now.tables).connections row None) ≡ unstarted }
    ensures some { IfSome result (λ s. LentAt core.now row s.now) }
{
    let connection = core.tables.connections[usize::from(row)].as_ref()?;
    connection.session.as_ref()
}

impl Started {
    // The started session of a row; none where the row is free, or its connection's session is not started.
    pub(crate) fn at(core: &Core, row: Row) -> Option<Started>
        ensures none { result ≡ None → session_at (slice_index_or (tables_of core.now.tables).connections row None) ≡ unstarted }
        ensures some { IfSome result (λ s. StartedAt core.now row s) }
    {
        let connection = core.tables.at::<Connection>(usize::from(row))?;
        let session = connection.session?;
        Some(Started {
            row,
            connection,
            session,
        })
    }

    // The connection with its session as it is now.
    fn as_held(&self) -> Connection
        ensures seen { connection_of result ≡ with_session (connection_of self.now.connection) self.now.connection.count (started self.now.session.container (talk_of self.now.session.talk)) }
        ensures answer { answer_of result.session ≡ answer_in self.now.session.talk }
    {
        Connection {
            session: Some(self.session),
            ..self.connection
        }
    }

    // The session goes on as it is now, and holds no answer.
    pub(crate) fn go_on(&self, core: &mut Core)
        requires silent { holds_talk (talk_of self.now.session.talk) ≡ false }
        ensures core { core_of core.new ≡ put (core_of core.old) (talks (core_of core.old) self.now.row (connection_of self.now.connection) self.now.session.container (talk_of self.now.session.talk)) (core_of core.old).pending }
        ensures answers { Keeps core.old.tables core.new.tables }
    {
        core.tables.put_connection(self.row, self.as_held());
    }

    // A command that does not open as it must: the session goes idle, and the failure is counted.
    pub(crate) fn fail(&self, core: &mut Core) -> Status
        ensures { Said (says (failed (core_of core.old) (talks (core_of core.old) self.now.row (connection_of self.now.connection) self.now.session.container idle) (core_of core.old).pending) sw.NotAuthentic) core.old core.new result }
    {
        let idle = Started {
            session: Session::started(self.session.container),
            ..*self
        };
        idle.go_on(core);
        core.count_failure();
        Status::NotAuthentic
    }

    // A command that opens, beyond the limit: the connection is removed.
    pub(crate) fn remove(&self, core: &mut Core) -> Status
        ensures { Said (says (put (core_of core.old) (without_connection (core_of core.old).tables self.now.row) (core_of core.old).pending) sw.LimitPassed) core.old core.new result }
    {
        core.tables.remove_connection(self.row);
        Status::LimitPassed
    }

    // The connection, one command on, with the answer to what its session has gathered.
    pub(crate) fn answered(&self, answer: Buffer) -> Connection
        requires below { self.now.connection.count < 18446744073709551615 }
        requires holds { holds_talk (completed_as (talk_of self.now.session.talk)) ≡ true }
        ensures seen { connection_of result ≡ with_session (connection_of self.now.connection) (self.now.connection.count + 1) (started self.now.session.container (completed_as (talk_of self.now.session.talk))) }
        ensures answer { answer_of result.session ≡ held answer }
    {
        let mut session = self.session;
        session.complete(answer);
        Connection {
            count: self.connection.count + 1,
            session: Some(session),
            ..self.connection
        }
    }
}
