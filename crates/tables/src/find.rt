// What a row holds, the row that holds what has a name, and the smallest free row.
ghost use Rattle.std.specs.Prelude.{◌≡◌, IfSome, is_none, position, if◌then◌else◌, Some, None, slice_index_or};
ghost use Rattle.std.specs.Option.{option_map};
ghost use Rattle.law.specs.Rows.{found, full, free};
ghost use Rattle.tables.specs.Retained.{passes};
ghost use Rattle.tables.specs.View.{at_of, tables_of};

use crate::at::At;
use crate::named::Named;
use crate::rows::Tables;
use table_rows::Row;

// The index of the first row whose item has this name.
fn first_named<T: Named>(rows: &[Option<T>], name: &[u8]) -> Option<usize>
    ensures { result ≡ position (passes (λ x. T.Named.called name.now (T.Named.seen x))) rows.now }
{
    rows.iter().position(
        |held|
            ensures { result ≡ passes (λ x. T.Named.called name.entry.now (T.Named.seen x)) held.now }
        { held.as_ref().is_some_and(|item| item.is_called(name)) },
    )
}

// The index of the first row that holds nothing.
fn first_free<T: Copy>(rows: &[Option<T>]) -> Option<usize>
    ensures { result ≡ position (λ o. is_none o) rows.now }
{
    rows.iter().position(|held| held.is_none())
}

impl Tables {
    // What this row holds; none where there is no such row.
    pub fn at<T: Named>(&self, row: usize) -> Option<T>
        ensures held { result ≡ slice_index_or (T.Named.held_in self.now) row None }
        ensures seen { option_map T.Named.seen result ≡ slice_index_or (T.Named.seen_in (tables_of self.now)) row None }
    {
        T::rows(self).get(row).copied().flatten()
    }

    // The first item that has this name, and its row.
    pub fn named<T: Named>(&self, name: &[u8]) -> Option<At<T>>
        ensures found { option_map (at_of T.Named.seen) result ≡ found (T.Named.called name.now) (T.Named.seen_in (tables_of self.now)) }
        ensures held { IfSome result (λ a. slice_index_or (T.Named.held_in self.now) a.row None ≡ Some a.item) }
    {
        let rows = T::rows(self);
        let index = first_named(rows, name)?;
        Some(At {
            row: Row::at(index).unwrap(),
            item: rows[index].unwrap(),
        })
    }

    // The row that a new item takes: the smallest that is free.
    pub fn free<T: Named>(&self) -> Option<Row>
        ensures { result ≡ (if full (T.Named.seen_in (tables_of self.now)) then None else Some (free (T.Named.seen_in (tables_of self.now)))) }
    {
        first_free(T::rows(self)).and_then(Row::at)
    }
}
