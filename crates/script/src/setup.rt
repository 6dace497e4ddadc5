// What two new cards are made of.
ghost use Rattle.std.specs.Prelude.{◌≡◌, Bool, MatchResult, ◌≢◌};
ghost use Rattle.script.specs.Words.{channel_word};

use std::str::FromStr;

// What a card's application keeps.
#[derive(Clone, Copy, PartialEq, Eq, Debug)]
pub enum Kept {
    Fares,
    Records,
}

// Which sealer both cards have.
#[derive(Clone, Copy, PartialEq, Eq, Debug)]
pub enum Seals {
    Real,
    Bench,
}

// Two new cards: what each keeps, whether they require the channel, and their sealer.
#[derive(Clone, Copy, PartialEq, Eq, Debug)]
pub struct Setup {
    pub left: Kept,
    pub right: Kept,
    pub required: bool,
    pub seals: Seals,
}

// No word of a setup.
#[derive(Clone, Copy, PartialEq, Eq, Debug)]
pub struct NoSuchWord;

// `Kept` and `Seals` are read alike, two words each: a table of words to share would be longer than the two matches.
impl FromStr for Kept {
    type Err = NoSuchWord;

    ghost use Rattle.std.specs.Prelude.{◌≡◌, MatchResult, ◌≢◌};
    ghost use Rattle.script.specs.Words.{kept_word};
    ghost use Rattle.script.specs.declared.setup.Kept.{Kept as KeptOf};

    ghost from_str_gives = { λ word read. MatchResult read (λ k. word ≡ kept_word k) (λ _. (k : KeptOf) → word ≢ kept_word k) };

    // What the word names.
    fn from_str(word: &str) -> Result<Kept, NoSuchWord> {
        match word {
            "fares" => Ok(Kept::Fares),
            "records" => Ok(Kept::Records),
            _ => Err(NoSuchWord),
        }
    }
}

impl FromStr for Seals {
    type Err = NoSuchWord;

    ghost use Rattle.std.specs.Prelude.{◌≡◌, MatchResult, ◌≢◌};
    ghost use Rattle.script.specs.Words.{seals_word};
    ghost use Rattle.script.specs.declared.setup.Seals.{Seals as SealsOf};

    ghost from_str_gives = { λ word read. MatchResult read (λ s. word ≡ seals_word s) (λ _. (s : SealsOf) → word ≢ seals_word s) };

    // The sealer that the word names.
    fn from_str(word: &str) -> Result<Seals, NoSuchWord> {
        match word {
            "real" => Ok(Seals::Real),
            "bench" => Ok(Seals::Bench),
            _ => Err(NoSuchWord),
        }
    }
}

// Whether cards require the channel. A `bool`, as cards take it, has no `FromStr` of ours.
fn channel_named(word: &str) -> Result<bool, NoSuchWord>
    ensures { MatchResult result (λ b. word.now ≡ channel_word b) (λ _. (b : Bool) → word.now ≢ channel_word b) }
{
    match word {
        "required" => Ok(true),
        "open" => Ok(false),
        _ => Err(NoSuchWord),
    }
}

impl TryFrom<[&str; 4]> for Setup {
    type Error = NoSuchWord;

    ghost use Rattle.std.specs.Prelude.{◌≡◌, MatchResult, ◌≢◌, map};
    ghost use Rattle.script.specs.Words.{setup_words};
    ghost use Rattle.script.specs.declared.setup.Setup.{Setup as SetupOf};

    ghost try_from_gives = { λ words read. MatchResult read (λ s. map (λ w. w.now) words ≡ setup_words s) (λ _. (s : SetupOf) → map (λ w. w.now) words ≢ setup_words s) };

    // What the four words behind `new` say.
    fn try_from(words: [&str; 4]) -> Result<Setup, NoSuchWord> {
        let [left, right, channel, seals] = words;
        Ok(Setup {
            left: left.parse()?,
            right: right.parse()?,
            required: channel_named(channel)?,
            seals: seals.parse()?,
        })
    }
}
