// Why a load is refused.
use std::error::Error;
use std::fmt;

// Why the text of a load gives no key, and the number by which the card answers it.
#[derive(Clone, Copy, PartialEq, Eq, Debug)]
pub enum Refusal {
    // It is not six lines in their order, each in its form.
    Malformed = 1,
    // It is well formed, and a limit is not set.
    Unset = 2,
}

// That number.
impl From<Refusal> for u8 {
    ghost use Rattle.std.specs.Prelude.{◌≡◌};
    ghost use Rattle.personalise.specs.Refusals.{refusal_number};

    ghost from_gives = { λ refusal number. number ≡ refusal_number refusal };

    fn from(refusal: Refusal) -> u8 {
        refusal as u8
    }
}

impl Refusal {
    ghost use Rattle.std.specs.Prelude.{◌≡◌};
    ghost use Rattle.personalise.specs.Refusals.{refusal_words};

    // The refusal in words, for people. Beside `Display`, since a formatter may fail and this can not.
    pub fn words(self) -> &'static str
        ensures { result.now ≡ refusal_words self }
    {
        match self {
            Refusal::Malformed =>
                "the text is not a key load: a line is missing, out of place or wrongly written",
            Refusal::Unset => "a limit is not set",
        }
    }
}

// The refusal in its words.
impl fmt::Display for Refusal {
    ghost use Rattle.std.specs.Prelude.{Some};
    ghost use Rattle.personalise.specs.Refusals.{refusal_words};

    ghost output = { λ refusal. Some (refusal_words refusal) };

    fn fmt<W: fmt::Write>(&self, f: &mut fmt::Formatter<W>) -> fmt::Result {
        f.write_str(self.words())
    }
}

impl Error for Refusal {}
