// The random bytes that the cards are given: fixed, so that every day is the same.
use sha256::digest_of;

// The digest of a number.
pub fn random(number: u64) -> [u8; 32] {
    digest_of(&number.to_be_bytes())
}
