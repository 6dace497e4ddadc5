// Entering keys, masters, connections and sessions into rows.
ghost use Rattle.std.specs.Prelude.{◌≡◌, ◌<◌, false, slice_set};
ghost use Rattle.personalise.specs.Says.{says};
ghost use Rattle.session.specs.declared.state.Talk.TheVariants.{Idle};
ghost use Rattle.session.specs.View.{session_of, answer_of};
ghost use Rattle.law.specs.Associations.{new_key};
ghost use Rattle.law.specs.Step.{kept, holds_session};
ghost use Rattle.law.specs.Tables.{idle, started, put_connection, with_session};
ghost use Rattle.tables.specs.View.{key_of, master_of, connection_of, connections_of, tables_of, answers_of, Keeps};
ghost use Rattle.tables.specs.Changed.{key_entered, master_entered, connection_entered};

use crate::at::At;
use crate::rows::{Connection, Key, Master, Tables};
use personalise::KeyLoad;
use session::Session;
use table_rows::Row;

impl Tables {
    // Puts a loaded key into the row; it has yielded no master.
    #[tactic(auto, using(crate::proofs::Kept::all_kept))]
    pub fn enter_key(&mut self, row: Row, load: KeyLoad)
        ensures tables { tables_of self.new ≡ key_entered (tables_of self.old) row (new_key (says load)) }
        ensures answers { Keeps self.old self.new }
    {
        self.keys[usize::from(row)] = Some(Key { load, count: 0 });
    }

    // Puts a master into the row, and counts it at its key. A connection is counted at another table, with another bound.
    #[tactic(auto, using(crate::proofs::Kept::all_kept))]
    pub fn enter_master(&mut self, key: At<Key>, row: Row, master: Master)
        requires { key.item.count < 65535 }
        ensures tables { tables_of self.new ≡ master_entered (tables_of self.old) key.row (key_of key.item) row (master_of master) }
        ensures answers { Keeps self.old self.new }
    {
        self.keys[usize::from(key.row)] = Some(Key {
            count: key.item.count + 1,
            ..key.item
        });
        self.masters[usize::from(row)] = Some(master);
    }

    // Puts a connection into the row, and counts it at its master. The answers stay where its session holds none.
    #[tactic(auto, using(crate::proofs::Kept::row_dropped))]
    pub fn enter_connection(&mut self, master: At<Master>, row: Row, connection: Connection)
        requires { master.item.count < 4294967295 }
        ensures tables { tables_of self.new ≡ connection_entered (tables_of self.old) master.row (master_of master.item) row (connection_of connection) }
        ensures silent { holds_session (session_of connection.session) ≡ false → Keeps self.old self.new }
    {
        self.masters[usize::from(master.row)] = Some(Master {
            count: master.item.count + 1,
            ..master.item
        });
        self.connections[usize::from(row)] = Some(connection);
    }

    // Starts the session of a connection, idle.
    #[tactic(auto, using(crate::proofs::Kept::row_dropped))]
    pub fn start(&mut self, mut at: At<Connection>, session: Session)
        requires { session.talk ≡ Idle }
        ensures tables { tables_of self.new ≡ put_connection (tables_of self.old) at.row (with_session (connection_of at.item) at.item.count (started session.container idle)) }
        ensures answers { Keeps self.old self.new }
    {
        at.item.session = Some(session);
        self.connections[usize::from(at.row)] = Some(at.item);
    }

    // Puts a connection into the row, with what its session holds.
    #[tactic(auto, using(crate::proofs::Kept::row_dropped, crate::proofs::Kept::row_answered))]
    pub fn put_connection(&mut self, row: Row, connection: Connection)
        ensures tables { tables_of self.new ≡ put_connection (tables_of self.old) row (connection_of connection) }
        ensures silent { holds_session (session_of connection.session) ≡ false → Keeps self.old self.new }
        ensures answered { answers_of self.new ≡ slice_set (kept (connections_of self.new.connections) (answers_of self.old)) row (answer_of connection.session) }
    {
        self.connections[usize::from(row)] = Some(connection);
    }
}
