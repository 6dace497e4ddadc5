// The card that is measured: a fare counter behind the real sealer.
use card::{HostRefusal, Off, Powered};
use fares::FareCounter;
use sealer::RealSealer;

// The key that the card and the terminal share, with limits that no burst meets.
pub const KEY: &[u8] =
    b"ref=000102030405060708090A0B0C0D0E0F101112131415\nkey=202122232425262728292A2B2C2D2E2F303132333435363738393A3B3C3D3E3F\nweak=0\nmasters=100\nconnections=100\ntransactions=100\n";

// What a host lends to every command.
#[derive(Clone, Copy)]
pub struct Host {
    pub reply: [u8; 258],
    pub work: [u8; 64],
}

impl Host {
    // Zeros throughout.
    pub fn new() -> Host {
        Host {
            reply: [0; 258],
            work: [0; 64],
        }
    }
}

// A powered card that requires the channel and holds the key.
pub fn new_card() -> anyhow::Result<Powered<RealSealer, FareCounter>> {
    let mut card = Off::new(RealSealer, FareCounter::new(), true);
    card.load(KEY)?;
    Ok(card.power_on())
}

// Sends a command, and gives the length of the reply.
pub fn send(
    card: &mut Powered<RealSealer, FareCounter>,
    apdu: &[u8],
    random: &[u8; 32],
    host: &mut Host,
) -> Result<usize, HostRefusal> {
    card.command(apdu, random, &mut host.reply, &mut host.work)
}
