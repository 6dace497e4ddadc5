// What a row holds, with the row.
use table_rows::Row;

// A held row, and what it holds.
#[derive(Clone, Copy)]
pub struct At<T> {
    pub row: Row,
    pub item: T,
}
