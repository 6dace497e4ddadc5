// The fare enciphered in place behind a header that stays in the clear.
use crate::TODAY;
use aes::Aes128;
use anyhow::Context;
use cipher::{cbc_decrypt, cbc_encrypt};
use fares::Fare;
use show::SpacedPairs;

// The header, and then one block.
const HEADER: usize = 4;

const LENGTH: usize = 20;

fn show_bytes(rt: &HostRuntime, what: &str, bytes: &[u8]) -> anyhow::Result<()> {
    println!(rt; "  {what} {}", SpacedPairs(bytes))?;
    Ok(())
}

// Header and fare, with zeros up to a whole block.
fn message() -> [u8; LENGTH] {
    let mut bytes = [0; LENGTH];
    bytes[..HEADER].copy_from_slice(&[0x00, 0xE2, 0x00, 0x00]);
    bytes[HEADER..HEADER + 5].copy_from_slice(&TODAY.bytes());
    bytes
}

// Puts the fare behind its header, enciphers it, deciphers it, and shows each step.
pub fn show_cipher_text(rt: &HostRuntime) -> anyhow::Result<()> {
    println!(rt; "  a fare of {TODAY}")?;
    let mut bytes = message();
    show_bytes(rt, "in bytes  ", &bytes)?;
    show_ways(rt, &mut bytes)?;
    let fare = Fare::read(&bytes[HEADER..HEADER + 5]).context("no fare came back")?;
    println!(rt; "  a fare of {fare}")?;
    Ok(())
}

// Enciphers and deciphers what stands behind the header.
fn show_ways(rt: &HostRuntime, bytes: &mut [u8; LENGTH]) -> anyhow::Result<()> {
    let cipher = Aes128::new(b"sixteen key byte");
    cbc_encrypt(&cipher, bytes, HEADER);
    show_bytes(rt, "enciphered", bytes)?;
    cbc_decrypt(&cipher, bytes, HEADER);
    show_bytes(rt, "deciphered", bytes)
}
