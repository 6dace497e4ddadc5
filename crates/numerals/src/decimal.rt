// Decimal numbers. Not by `str::parse`, which takes a sign and zeros in front.
ghost use Rattle.std.specs.Prelude.{◌≡◌, ◌≤◌, [], ◌∷◌, IfSome};
ghost use Rattle.numerals.specs.Decimal.{digits, numeral, upto};

// The number that `text` writes: decimal digits alone, at least one, no zero in front of another, at most `top`.
pub fn read_decimal(text: &[u8], top: u64) -> Option<u64>
    ensures value { result ≡ numeral top text.now }
    ensures within { IfSome result (λ n. n ≤ top) }
{
    match text {
        [] | [b'0', _, ..] => None,
        _ => read_digits(text, top),
    }
}

// The value of a row of digits, never above `top`.
fn read_digits(text: &[u8], top: u64) -> Option<u64>
    ensures value { result ≡ upto top (digits 0 text.now) }
    ensures within { IfSome result (λ n. n ≤ top) }
{
    text.iter()
        .try_fold(0, |value, c| with_digit(value, *c, top))
}

// The number with one digit more.
fn with_digit(value: u64, c: u8, top: u64) -> Option<u64>
    ensures { result ≡ upto top (digits value (c ∷ [])) }
{
    let digit = char::from(c).to_digit(10)?;
    let next = value.checked_mul(10)?.checked_add(u64::from(digit))?;
    (next <= top).then_some(next)
}
