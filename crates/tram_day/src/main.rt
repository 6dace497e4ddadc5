// One fare's day on two cards, from the loading of the key to the depot's total, with a line for each action.
#![tactic(auto)]

mod cards;
mod establish;
mod key;
mod line;
mod random;
mod talk;
mod trip;

use cards::Cards;
use establish::{discover, end, establish_connection, establish_master, start};
use terminal::Master;

// Fares go through a connection until it may carry no more.
fn trips(cards: &mut Cards<'_>, master: &Master) -> anyhow::Result<()> {
    let connection = establish_connection(cards, master)?;
    let mut channel = start(cards, connection)?;
    channel.first_fare()?;
    channel.second_fare()?;
    channel.receipt()?;
    channel.total()?;
    channel.beyond()
}

fn day(rt: &HostRuntime) -> anyhow::Result<()> {
    let mut cards = Cards::new(rt);
    let load = key::load(&mut cards)?;
    discover(&mut cards)?;
    let master = establish_master(&mut cards, &load)?;
    trips(&mut cards, &master)?;
    let connection = establish_connection(&mut cards, &master)?;
    end(&mut cards, &master, &connection)
}

fn main(rt: HostRuntime) -> anyhow::Result<()> {
    day(&rt)
}
