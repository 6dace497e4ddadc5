// Tables that hold nothing.
ghost use Rattle.std.specs.Prelude.{◌≡◌, [], ◌∷◌};
ghost use Rattle.law.specs.Rows.{free_rows};
ghost use Rattle.law.specs.Tables.{no_tables, put_connections};
ghost use Rattle.tables.specs.View.{tables_of, answers_of};

use crate::rows::Tables;

impl Tables {
    // All rows are free.
    pub fn new() -> Tables
        ensures tables { tables_of result ≡ no_tables }
        ensures answers { answers_of result ≡ [] ∷ [] ∷ [] ∷ [] ∷ [] }
    {
        Tables {
            keys: [None; 4],
            masters: [None; 4],
            connections: [None; 4],
        }
    }

    // All connections leave at once, and their answers with them.
    pub fn drop_connections(&mut self)
        ensures tables { tables_of self.new ≡ put_connections (tables_of self.old) free_rows }
        ensures answers { answers_of self.new ≡ [] ∷ [] ∷ [] ∷ [] ∷ [] }
    {
        let free = [None; 4];
        self.connections = free;
    }
}
