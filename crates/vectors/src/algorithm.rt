// What a vector can be run on.
use crate::fault::Fault;
use numerals::read_array;
use sealing::Suite;
use std::str::FromStr;

// An algorithm by the name that a line begins with.
#[derive(Clone, Copy)]
pub enum Algorithm {
    Aes,
    AesInverse,
    AesChain,
    AesChainInverse,
    TripleAes,
    Des,
    DesInverse,
    TripleDes,
    TripleDesInverse,
    TripleDesChain,
    Crc,
    Cmac,
    Sha,
    Hmac,
    Expansion,
    Load,
    Object,
    Seal(Suite),
    Open(Suite),
}

impl FromStr for Algorithm {
    type Err = Fault;

    // The algorithm of that name.
    fn from_str(name: &str) -> Result<Algorithm, Fault> {
        Ok(match name {
            "aes128" => Algorithm::Aes,
            "aes128-inverse" => Algorithm::AesInverse,
            "aes128-cbc" => Algorithm::AesChain,
            "aes128-cbc-inverse" => Algorithm::AesChainInverse,
            "triple-aes128" => Algorithm::TripleAes,
            "des" => Algorithm::Des,
            "des-inverse" => Algorithm::DesInverse,
            "triple-des" => Algorithm::TripleDes,
            "triple-des-inverse" => Algorithm::TripleDesInverse,
            "triple-des-cbc" => Algorithm::TripleDesChain,
            "crc32" => Algorithm::Crc,
            "cmac-aes128" => Algorithm::Cmac,
            "sha256" => Algorithm::Sha,
            "hmac-sha256" => Algorithm::Hmac,
            "expansion" => Algorithm::Expansion,
            "load" => Algorithm::Load,
            "object" => Algorithm::Object,
            _ => sealed(name).ok_or(Fault::NotAVector)?,
        })
    }
}

// Sealing or opening, with the bytes of cipher and mechanism behind the word: seal-0404.
fn sealed(name: &str) -> Option<Algorithm> {
    let (word, bytes) = name.split_once('-')?;
    let suite = suite_of(bytes)?;
    match word {
        "seal" => Some(Algorithm::Seal(suite)),
        "open" => Some(Algorithm::Open(suite)),
        _ => None,
    }
}

fn suite_of(text: &str) -> Option<Suite> {
    let bytes: [u8; 2] = read_array(text.as_bytes())?;
    Suite::try_from(bytes).ok()
}
