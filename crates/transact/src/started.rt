// A session that is started.
use session::Session;
use table_rows::Row;
use tables::Connection;

// A row, its connection as the row holds it, and the connection's session as it is now.
#[derive(Clone, Copy)]
pub struct Started {
    pub row: Row,
    pub connection: Connection,
    pub session: Session,
}
