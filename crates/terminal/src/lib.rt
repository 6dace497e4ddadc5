// The terminal's half of the protocol: what it sends, what it derives, what it checks.
#![tactic(auto)]

mod channel;
mod command;
mod connection;
mod heard;
mod mac;
mod master;
mod object;
mod offer;
mod request;
mod secrets;
mod session;

pub use command::{first_block, next_block, reply_wanted};
pub use connection::Connection;
pub use heard::{read_connection, read_master, read_session};
pub use mac::short_mac;
pub use master::Master;
pub use offer::Offer;
pub use request::{
    connection_end_object, connection_object, master_end_object, master_object, start_object,
};
pub use session::Session;
