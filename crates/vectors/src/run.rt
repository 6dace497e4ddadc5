// Running a vector: what its algorithm makes of its key and input.
ghost use Rattle.std.specs.Prelude.{◌≡◌, ◌%◌, length};

use crate::algorithm::Algorithm;
use crate::fault::Fault;
use crate::readings::{load, object};
use crate::seals::{opened, sealed};
use aes::Aes128;
use cipher::{BlockCipher, Triple, cbc_decrypt, cbc_encrypt};
use cmac::Cmac;
use crc::Crc32;
use des::Des;
use hmac::{expand, mac};
use integrity::Integrity;
use sha256::digest_of;
use std::alloc::Global;

// What comes out, where key and input have the length that the algorithm takes.
pub type Outcome = Result<Vec<u8>, Fault>;

// The bytes as an array, where they are so many.
pub fn exactly<const N: usize>(bytes: &[u8]) -> Result<&[u8; N], Fault> {
    bytes.as_array().ok_or(Fault::OtherLength)
}

// `new` is of no trait, so each cipher has a function to make it.
fn aes(key: &[u8]) -> Result<Aes128, Fault> {
    Ok(Aes128::new(exactly(key)?))
}

fn des(key: &[u8]) -> Result<Des, Fault> {
    Ok(Des::new(exactly(key)?))
}

// Three ciphers in turn, each made by `single` of a third of the key.
fn triple<C: BlockCipher + Drop, F: Fn(&[u8]) -> Result<C, Fault>>(
    key: &[u8],
    single: F,
) -> Result<Triple<C>, Fault>
    requires { F.IsAlwaysCallable single }
{
    let third = key.len() / 3;
    let (first, rest) = key.split_at(third);
    let (second, last) = rest.split_at(third);
    Ok(Triple::new(single(first)?, single(second)?, single(last)?))
}

// One block, after `work`.
fn block<C: BlockCipher + Drop, F: FnOnce(&C, &mut [u8])>(
    heap: Global,
    cipher: Result<C, Fault>,
    input: &[u8],
    work: F,
) -> Outcome
    requires { (c block : _) → length block.now ≡ C.BLOCK → F.pre work c block }
{
    let cipher = cipher?;
    if input.len() != C::BLOCK {
        return Err(Fault::OtherLength);
    }
    let mut out = input.to_vec(heap)?;
    work(&cipher, out.as_mut_slice());
    Ok(out)
}

// Whole blocks, after `work`. Apart from `block`: with the test of the length as one more closure one text would be longer.
fn blocks<C: BlockCipher + Drop, F: FnOnce(&C, &mut [u8])>(
    heap: Global,
    cipher: Result<C, Fault>,
    input: &[u8],
    work: F,
) -> Outcome
    requires { (c buf : _) → length buf.now % C.BLOCK ≡ 0 → F.pre work c buf }
{
    let cipher = cipher?;
    if input.len() % C::BLOCK != 0 {
        return Err(Fault::OtherLength);
    }
    let mut out = input.to_vec(heap)?;
    work(&cipher, out.as_mut_slice());
    Ok(out)
}

// A mechanism's check.
fn check<I: Integrity + Drop>(heap: Global, mechanism: I, input: &[u8]) -> Outcome {
    let mut out = vec![in heap; 0u8; I::LEN]?;
    mechanism.write_check(input, out.as_mut_slice());
    Ok(out)
}

fn expansion(heap: Global, key: &[u8], seed: &[u8]) -> Outcome {
    let mut area = [0; 64];
    expand(key, &[seed], &mut area);
    copied(heap, &area)
}

// A copy of the bytes.
pub fn copied(heap: Global, bytes: &[u8]) -> Outcome {
    Ok(bytes.to_vec(heap)?)
}

// What the algorithm makes of key and input.
pub fn run(heap: Global, algorithm: Algorithm, key: &[u8], input: &[u8]) -> Outcome {
    match algorithm {
        Algorithm::Aes => block(heap, aes(key), input, |c, b| c.encrypt(b)),
        Algorithm::AesInverse => block(heap, aes(key), input, |c, b| c.decrypt(b)),
        Algorithm::AesChain => blocks(heap, aes(key), input, |c, b| cbc_encrypt(c, b, 0)),
        Algorithm::AesChainInverse => blocks(heap, aes(key), input, |c, b| cbc_decrypt(c, b, 0)),
        Algorithm::TripleAes => block(heap, triple(key, aes), input, |c, b| c.encrypt(b)),
        Algorithm::Des => block(heap, des(key), input, |c, b| c.encrypt(b)),
        Algorithm::DesInverse => block(heap, des(key), input, |c, b| c.decrypt(b)),
        Algorithm::TripleDes => block(heap, triple(key, des), input, |c, b| c.encrypt(b)),
        Algorithm::TripleDesInverse => block(heap, triple(key, des), input, |c, b| c.decrypt(b)),
        Algorithm::TripleDesChain => {
            blocks(heap, triple(key, des), input, |c, b| cbc_encrypt(c, b, 0))
        }
        Algorithm::Crc => check(heap, Crc32, input),
        Algorithm::Cmac => check(heap, Cmac::new(aes(key)?), input),
        Algorithm::Sha => copied(heap, &digest_of(input)),
        Algorithm::Hmac => copied(heap, &mac(key, input)),
        Algorithm::Expansion => expansion(heap, key, input),
        Algorithm::Load => load(heap, input),
        Algorithm::Object => object(heap, input),
        Algorithm::Seal(suite) => sealed(heap, suite, key, input),
        Algorithm::Open(suite) => opened(heap, suite, key, input),
    }
}
