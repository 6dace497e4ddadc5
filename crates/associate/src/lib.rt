// Associating: establishing masters and connections, starting sessions and terminating, on the card's tables.
#![tactic(auto)]

mod answer;
mod carry;
mod check;
mod confirm;
mod connection;
mod derive;
mod lent;
mod mac;
mod master;
mod start;
mod suite;
mod terminate;

pub use answer::object;
pub use carry::carry_out;
pub use lent::Lent;
