// Why a call is refused.
ghost use Rattle.std.specs.Prelude.{◌≡◌};
ghost use Rattle.sealer_c.specs.Calls.{refusal_number};
ghost use Rattle.sealer_c.specs.declared.refusal.Refusal.TheVariants.{Unfit};

use sealing::UnknownByte;

// Why a call is refused, and the number that the caller gets: 7 and 8 are the C interface's.
#[derive(Clone, Copy, PartialEq, Eq, Debug)]
pub enum Refusal {
    // An unknown suite or direction, or a length that does not fit.
    Unfit = 7,
    // A string that does not open.
    Shut = 8,
}

// That number.
impl From<Refusal> for usize {
    ghost from_gives = { λ refusal n. n ≡ refusal_number refusal };

    fn from(refusal: Refusal) -> usize {
        refusal as usize
    }
}

impl From<UnknownByte> for Refusal {
    ghost from_gives = { λ _ refusal. refusal ≡ Unfit };

    fn from(_byte: UnknownByte) -> Refusal {
        Refusal::Unfit
    }
}
