// The fare as a sealed command, under two suites.
use crate::TODAY;
use anyhow::Context;
use fares::Fare;
use sealer::RealSealer;
use sealing::{Cipher, Direction, Mechanism, Sealer, Suite, Text};
use show::SpacedPairs;

// Opens the string, and shows the fare or the refusal.
fn show_opened(
    rt: &HostRuntime,
    suite: Suite,
    keys: &[u8; 40],
    string: &mut [u8],
) -> anyhow::Result<()> {
    let Some(text) = RealSealer.open(suite, keys, string) else {
        println!(rt; "  refused: this is no text's sealing")?;
        return Ok(());
    };
    let body = text.body(string).context("a body outside its string")?;
    let data = body.get(5..10).context("a body without a fare")?;
    let fare = Fare::read(data).context("no fare came back")?;
    println!(rt; "  opened: command {}, a fare of {fare}", text.number)?;
    Ok(())
}

// Seals the fare, opens it, damages a byte, and opens again.
fn show_suite(rt: &HostRuntime, name: &str, suite: Suite) -> anyhow::Result<()> {
    let keys = *b"forty key bytes: 24 cipher, 16 mechanism";
    let text = Text {
        direction: Direction::Command,
        number: 0,
        body: &TODAY.command(),
    };
    // A sealer has no heap: it is lent room, and answers the length.
    let mut string = [0; 288];
    let len = RealSealer.seal(suite, &keys, text, &mut string);
    println!(rt; "  sealed with {name}: {}", SpacedPairs(&string[..len]))?;
    let mut damaged = string;
    damaged[2] ^= 1;
    show_opened(rt, suite, &keys, &mut string[..len])?;
    println!(rt; "  with one bit of the third byte changed")?;
    show_opened(rt, suite, &keys, &mut damaged[..len])
}

// The fare under AES with CMAC, and under three-key triple DES with CRC32.
pub fn show_channel(rt: &HostRuntime) -> anyhow::Result<()> {
    println!(rt; "  the command {}", SpacedPairs(&TODAY.command()))?;
    show_suite(
        rt,
        "AES and CMAC",
        Suite {
            cipher: Cipher::Aes,
            mechanism: Mechanism::Cmac,
        },
    )?;
    show_suite(
        rt,
        "triple DES and CRC32",
        Suite {
            cipher: Cipher::ThreeKey,
            mechanism: Mechanism::Crc32,
        },
    )
}
