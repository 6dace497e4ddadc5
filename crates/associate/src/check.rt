// The single checks of the associating commands: each passes or not, and a command says what it answers where one does not.
ghost use Rattle.std.specs.Prelude.{◌≡◌, ◌<◌, OnSome};
ghost use Rattle.law.specs.Rows.{found};
ghost use Rattle.law.specs.Associations.{id_of};
ghost use Rattle.tables.specs.View.{key_of, connection_of, tables_of};
ghost use Rattle.associate.specs.Checks.{agreed, below, unused, fresh};

use crate::derive::identifier;
use crate::suite::has_bit;
use tables::{Connection, Key, Named, Tables};

// Passes where the terminal has the one key mechanism of the card, and the key is not weak.
pub fn agreed(key: &Key, mechanisms: u8) -> Option<()>
    ensures { result ≡ agreed mechanisms (key_of key.now).says.weak }
{
    (has_bit(mechanisms, 1) && !key.load.is_weak()).then_some(())
}

// Passes where one more is within the limit.
pub fn below(count: u32, limit: u32) -> Option<()>
    ensures is { result ≡ below count limit }
    ensures within { OnSome result (count < limit) }
{
    (count < limit).then_some(())
}

// Passes where nothing has the identifier that the random bytes make.
pub fn unused<T: Named>(tables: &Tables, random: &[u8; 32]) -> Option<()>
    ensures { result ≡ unused (found (T.Named.called (id_of random.now)) (T.Named.seen_in (tables_of tables.now))) }
{
    tables
        .named::<T>(&identifier(random))
        .is_none()
        .then_some(())
}

// Passes where the connection's session is not started.
pub fn fresh(connection: &Connection) -> Option<()>
    ensures { result ≡ fresh (connection_of connection.now).session }
{
    connection.session.is_none().then_some(())
}
