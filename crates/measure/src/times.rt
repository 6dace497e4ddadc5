// Nanoseconds of the card's work and of what it contains.
use std::time::{Duration, Instant};

// The shortest time of some bursts: the card's, and that of the sealings or codes that its work contains.
#[derive(Clone, Copy)]
pub struct Times {
    pub card: u64,
    pub contained: u64,
}

impl Times {
    // The shorter one of each.
    pub fn least(self, other: Times) -> Times {
        Times {
            card: self.card.min(other.card),
            contained: self.contained.min(other.contained),
        }
    }

    // One row of the table: nanoseconds for each of so many pieces of work, and the ratio.
    pub fn print(self, rt: &HostRuntime, name: &str, pieces: u64) -> anyhow::Result<()> {
        let card = quotient(self.card, pieces);
        let contained = quotient(self.contained, pieces);
        let hundredths = quotient(self.card.saturating_mul(100), self.contained);
        let whole = hundredths / 100;
        let rest = hundredths % 100;
        println!(rt; "| {name} | {card} | {contained} | {whole}.{rest:02} |")?;
        Ok(())
    }
}

// A quotient, or 0 where there is none.
fn quotient(a: u64, b: u64) -> u64 {
    a.checked_div(b).unwrap_or(0)
}

// Whole nanoseconds.
fn nanoseconds(time: Duration) -> u64 {
    time.as_nanos().min(1_000_000_000_000) as u64
}

// What some work gives, and the nanoseconds that it took.
pub fn timed<T: Drop, F: FnOnce() -> T>(rt: &HostRuntime, work: F) -> anyhow::Result<(T, u64)>
    requires { F.IsAlwaysCallable work }
{
    let start = Instant::now(rt)?;
    let given = work();
    Ok((given, nanoseconds(start.elapsed(rt)?)))
}

// The best of so many bursts; of none, what every burst is below.
pub fn best_of<F: FnMut() -> anyhow::Result<Times>>(
    bursts: u32,
    mut burst: F,
) -> anyhow::Result<Times>
    requires { F.IsAlwaysCallable burst }
{
    let mut best = Times {
        card: u64::MAX,
        contained: u64::MAX,
    };
    for _ in 0..bursts {
        best = best.least(burst()?);
    }
    Ok(best)
}
