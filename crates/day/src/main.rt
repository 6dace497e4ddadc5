// One fare's day: the key it needs, its bytes, the channel it goes through, and the applications that keep it.
#![tactic(auto)]

mod applications;
mod channel;
mod cipher_text;
mod key;

use fares::Fare;

// The fare of this day.
const TODAY: Fare = Fare {
    class: 3,
    amount: 300,
};

fn day(rt: &HostRuntime) -> anyhow::Result<()> {
    println!(rt; "The key")?;
    key::show_key(rt)?;
    println!(rt; "")?;
    println!(rt; "The fare, enciphered behind its header")?;
    cipher_text::show_cipher_text(rt)?;
    println!(rt; "")?;
    println!(rt; "The fare through the channel")?;
    channel::show_channel(rt)?;
    println!(rt; "")?;
    println!(rt; "The fare counter")?;
    applications::show_counter(rt)?;
    println!(rt; "")?;
    println!(rt; "The record file")?;
    applications::show_records(rt)
}

fn main(rt: HostRuntime) -> anyhow::Result<()> {
    day(&rt)
}
