// The number of a row.
ghost use Rattle.std.specs.Prelude.{◌≡◌, ◌/◌, if◌then◌else◌, nat_lt, Some, None};

use std::marker::Model;

// One of the four rows of a table. A clause reads it as its number.
#[derive(Clone, Copy, PartialEq, Eq, Debug)]
pub struct Row {
    number: u8,
}

impl Model for Row {
    ghost use Rattle.std.specs.Prelude.{ℕ, ◌<◌};

    ghost Value = { ℕ };

    ghost view = { λ r. r.number };

    ghost invariant = { λ r. r.number < 4 };

    ghost inverse = { λ n. record { number = n } };
}

impl Row {
    // The row that the two high bits of a P1 name.
    pub fn of_p1(p1: u8) -> Row
        ensures { result ≡ p1 / 64 }
    {
        Row { number: p1 / 64 }
    }

    // The row of this number; none where there is no such row, which is all that an error of `TryFrom` could say. (An `if`: the
    // closure that `then` takes would ask for the bound in a clause of its own.)
    pub fn at(number: usize) -> Option<Row>
        ensures { result ≡ (if nat_lt number 4 then Some number else None) }
    {
        if number < 4 {
            Some(Row {
                number: number as u8,
            })
        } else {
            None
        }
    }
}

// Its number, as the index of an array of four.
impl From<Row> for usize {
    ghost from_gives = { λ row number. number ≡ row };

    fn from(row: Row) -> usize {
        usize::from(row.number)
    }
}

// Its number, as a byte.
impl From<Row> for u8 {
    ghost from_gives = { λ row number. number ≡ row };

    fn from(row: Row) -> u8 {
        row.number
    }
}
