// Removing keys, masters and connections, with all that rests on them.
ghost use Rattle.std.specs.Prelude.{◌≡◌, is_some, None, slice_index_or};
ghost use Rattle.law.specs.Tables.{without_connection, without_master, without_key};
ghost use Rattle.tables.specs.View.{tables_of, Keeps};

use crate::retain::retain;
use crate::rows::Tables;
use table_rows::Row;

impl Tables {
    // Removes the connection of the row.
    #[tactic(auto, using(crate::proofs::Kept::row_dropped))]
    pub fn remove_connection(&mut self, row: Row)
        ensures tables { tables_of self.new ≡ without_connection (tables_of self.old) row }
        ensures answers { Keeps self.old self.new }
    {
        self.connections[usize::from(row)] = None;
    }

    // Removes the master of the row, and its connections.
    pub fn remove_master(&mut self, row: Row)
        ensures tables { tables_of self.new ≡ without_master (tables_of self.old) row }
        ensures answers { Keeps self.old self.new }
    {
        let row = usize::from(row);
        self.masters[row] = None;
        retain(&mut self.connections, |connection| connection.master != row);
    }

    // Removes the key of the row, its masters, and their connections.
    pub fn remove_key(&mut self, row: Row)
        ensures tables { tables_of self.new ≡ without_key (tables_of self.old) row }
        ensures answers { Keeps self.old self.new }
    {
        let row = usize::from(row);
        self.keys[row] = None;
        retain(&mut self.masters, |master| master.key != row);
        let masters = &self.masters;
        retain(
            &mut self.connections,
            |connection|
                ensures { result ≡ is_some (slice_index_or masters.entry.now connection.now.master None) }
            { masters.get(connection.master).copied().flatten().is_some() },
        );
    }
}
