// The limits that a key sets for what rests on it.
ghost use Rattle.std.specs.Prelude.{◌≡◌, None, slice_index_or};
ghost use Rattle.law.specs.Associations.{connections_limit, key_row, transactions_limit};
ghost use Rattle.tables.specs.View.{master_of, tables_of};

use crate::rows::{Key, Master, Tables};

impl Tables {
    // How many connections a master may yield: none where its key is gone.
    pub fn connections_limit(&self, master: &Master) -> u32
        ensures { result ≡ connections_limit (tables_of self.now).keys (master_of master.now) }
    {
        self.at::<Key>(master.key)
            .map_or(0, |key| key.load.connections())
    }

    // The row of the key that the master of this row rests on; 0 where the row holds none, as in the rules. (An `and_then` of the
    // two look-ups would find no key there, and the rules take that of row 0.)
    fn key_row(&self, master: usize) -> usize
        ensures { result ≡ key_row (slice_index_or (tables_of self.now).masters master None) }
    {
        self.at::<Master>(master).map_or(0, |held| held.key)
    }

    // How many commands a connection may accept that rests on the master of this row.
    pub fn transactions_limit(&self, master: usize) -> u64
        ensures { result ≡ transactions_limit (tables_of self.now).keys (tables_of self.now).masters master }
    {
        self.at::<Key>(self.key_row(master))
            .map_or(0, |key| key.load.transactions())
    }
}
