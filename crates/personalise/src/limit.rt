// How many may be made: a limit as its line says it.
ghost use Rattle.std.specs.Prelude.{◌≡◌};
ghost use Rattle.std.specs.Option.{option_map};
ghost use Rattle.personalise.specs.Limits.{limit, Within};

use crate::refusal::Refusal;
use numerals::read_decimal;

// The number that the value of a limit's line says. Unset is no number, where the line is absent or nothing stands behind
// its name: an empty value is told from 0. Malformed is what is no number up to the top.
pub fn read_limit(value: Option<&[u8]>, top: u64) -> Result<u64, Refusal>
    ensures value { result ≡ limit top (option_map (λ x. x.now) value.entry) }
    ensures within { Within top result }
{
    match value {
        None | Some([]) => Err(Refusal::Unset),
        Some(digits) => read_decimal(digits, top).ok_or(Refusal::Malformed),
    }
}
