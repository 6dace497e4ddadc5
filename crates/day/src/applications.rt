// The two applications, command by command.
use crate::TODAY;
use anyhow::Context;
use application::Application;
use fares::{Fare, FareCounter};
use records::RecordFile;
use show::{Reply, SpacedPairs};

// Runs one command, and shows it with its reply and what the status word says.
fn show_command<A: Application>(
    rt: &HostRuntime,
    application: &mut A,
    command: &[u8],
) -> anyhow::Result<()> {
    let mut buffer = [0; 258];
    let len = application.run(command, &mut buffer);
    let reply = buffer.get(..len).context("a reply longer than its buffer")?;
    println!(rt; "  > {}", SpacedPairs(command))?;
    println!(rt; "  < {}", Reply(reply))?;
    Ok(())
}

// Fares are appended, and the sum is asked for.
pub fn show_counter(rt: &HostRuntime) -> anyhow::Result<()> {
    let mut counter = FareCounter::new();
    let second = Fare {
        class: 0,
        amount: 250,
    };
    let refused = Fare {
        class: 8,
        amount: 1,
    };
    for fare in [TODAY, second, refused] {
        show_command(rt, &mut counter, &fare.command())?;
    }
    show_command(rt, &mut counter, &[0x00, 0xCA, 0x00, 0x00, 0x00])?;
    show_command(rt, &mut counter, &[0x00, 0xB2, 0x01, 0x00, 0x00])?;
    show_command(rt, &mut counter, &[0x00, 0xCA, 0x00])
}

// A record is read, written, and read again.
pub fn show_records(rt: &HostRuntime) -> anyhow::Result<()> {
    let mut file = RecordFile::new();
    let write = *b"\x00\xDC\x02\x00\x10line 7, 17 Nov. ";
    show_command(rt, &mut file, &[0x00, 0xB2, 0x02, 0x00, 0x00])?;
    show_command(rt, &mut file, &write)?;
    show_command(rt, &mut file, &[0x00, 0xB2, 0x02, 0x00, 0x00])?;
    show_command(rt, &mut file, &[0x00, 0xB2, 0x09, 0x00, 0x00])?;
    show_command(rt, &mut file, &[0x00, 0xDC, 0x02, 0x00, 0x02, 0x00, 0x00])
}
