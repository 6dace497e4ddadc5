// The numbers of the refusals, and what they say in words.
ghost use Rattle.std.specs.Prelude.{◌≡◌, Some};
ghost use Rattle.card.specs.Refusals.{load_number_of, load_words, host_number, host_words, refused_text};

use crate::refusal::{HostRefusal, LoadRefusal};
use personalise::Refusal;
use std::error::Error;
use std::fmt;

// Its number.
impl From<LoadRefusal> for u8 {
    ghost from_gives = { λ e n. n ≡ load_number_of e };

    fn from(refusal: LoadRefusal) -> u8 {
        refusal as u8
    }
}

// Its number.
impl From<HostRefusal> for u8 {
    ghost from_gives = { λ e n. n ≡ host_number e };

    fn from(refusal: HostRefusal) -> u8 {
        refusal as u8
    }
}

// A text that gives no key. Its cases stand among the card's own, which have words and numbers of their own.
impl From<Refusal> for LoadRefusal {
    ghost from_gives = { λ r e. e ≡ refused_text r };

    fn from(refusal: Refusal) -> LoadRefusal {
        match refusal {
            Refusal::Malformed => LoadRefusal::Malformed,
            Refusal::Unset => LoadRefusal::Unset,
        }
    }
}

impl LoadRefusal {
    // The refusal in words, for people. Beside Display, whose formatter may fail where this cannot.
    pub fn words(self) -> &'static str
        ensures { result.now ≡ load_words self }
    {
        match self {
            LoadRefusal::Malformed => "the text is not a key load",
            LoadRefusal::Unset => "a limit is not set",
            LoadRefusal::AlreadyHeld => "a key with this reference is held already",
            LoadRefusal::NoRow => "no key row is free",
        }
    }
}

// The refusal in its words.
impl fmt::Display for LoadRefusal {
    ghost output = { λ e. Some (load_words e) };

    fn fmt<W: fmt::Write>(&self, f: &mut fmt::Formatter<W>) -> fmt::Result {
        f.write_str(self.words())
    }
}

impl Error for LoadRefusal {}

impl HostRefusal {
    // The refusal in words, for people. Beside Display, whose formatter may fail where this cannot.
    pub fn words(self) -> &'static str
        ensures { result.now ≡ host_words self }
    {
        match self {
            HostRefusal::ShortMemory => "the reply buffer or the work area is too short",
            HostRefusal::RandomBytes => "there are not 32 random bytes",
        }
    }
}

// The refusal in its words.
impl fmt::Display for HostRefusal {
    ghost output = { λ e. Some (host_words e) };

    fn fmt<W: fmt::Write>(&self, f: &mut fmt::Formatter<W>) -> fmt::Result {
        f.write_str(self.words())
    }
}

impl Error for HostRefusal {}
