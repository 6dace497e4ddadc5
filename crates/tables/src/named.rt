// What has a name by which it is found in its table.
ghost use Rattle.std.specs.Prelude.{◌≡◌, ℕ, Bool, List, map, length, Option, refl};
ghost use Rattle.std.specs.Option.{option_map};
ghost use Rattle.law.specs.Associations as made;
ghost use Rattle.law.specs.Tables as law;
ghost use Rattle.law.specs.Associate.{has_ref, has_msa, has_csa};
ghost use Rattle.tables.specs.View.{key_of, master_of, connection_of, tables_of};

use crate::rows::{Connection, Key, Master, Tables};

// An item of a table: its table, what the rules see of the item and of the table, and whether it has a name.
pub trait Named: Copy {
    ghost use Rattle.tables.specs.declared.rows.Tables.{Tables};

    ghost Seen: { Type 0 };

    ghost seen: { Self → Seen };

    ghost called: { List ℕ → Seen → Bool };

    ghost held_in: { Tables → List (Option Self) };

    ghost seen_in: { law.Tables → List (Option Seen) };

    // Whether it has this name. Masters and connections answer alike, each by a field of its own.
    fn is_called(&self, name: &[u8]) -> bool
        ensures { result ≡ called name.now (seen self.now) };

    // The rows of its table.
    fn rows(tables: &Tables) -> &[Option<Self>]
        ensures is { result.now ≡ held_in tables.now }
        ensures four { length result.now ≡ 4 };

    ghost seen_rows: { (t : Tables) → seen_in (tables_of t) ≡ map (option_map seen) (held_in t) };
}

impl Named for Key {
    ghost Seen = { made.Key };

    ghost seen = { key_of };

    ghost called = { has_ref };

    ghost held_in = { λ t. t.keys };

    ghost seen_in = { λ t. t.keys };

    fn is_called(&self, name: &[u8]) -> bool {
        self.load.reference() == name
    }

    fn rows(tables: &Tables) -> &[Option<Key>] {
        &tables.keys
    }

    ghost seen_rows = { λ t. refl };
}

impl Named for Master {
    ghost Seen = { made.Master };

    ghost seen = { master_of };

    ghost called = { has_msa };

    ghost held_in = { λ t. t.masters };

    ghost seen_in = { λ t. t.masters };

    fn is_called(&self, name: &[u8]) -> bool {
        &self.id[..] == name
    }

    fn rows(tables: &Tables) -> &[Option<Master>] {
        &tables.masters
    }

    ghost seen_rows = { λ t. refl };
}

impl Named for Connection {
    ghost Seen = { law.Connection };

    ghost seen = { connection_of };

    ghost called = { has_csa };

    ghost held_in = { λ t. t.connections };

    ghost seen_in = { λ t. t.connections };

    fn is_called(&self, name: &[u8]) -> bool {
        &self.id[..] == name
    }

    fn rows(tables: &Tables) -> &[Option<Connection>] {
        &tables.connections
    }

    ghost seen_rows = { λ t. refl };
}
