// Bytes as pairs of hexadecimal digits.
ghost use Rattle.std.specs.Prelude.{◌≡◌, ◌*◌, ◌<◌, length, is_some, IfSome};
ghost use Rattle.numerals.specs.Hexadecimal.{digit, sized, unhex, when};

// The `N` bytes that pairs of digits 0-9 A-F write; nothing where `text` is anything but `N` pairs.
pub fn read_array<const N: usize>(text: &[u8]) -> Option<[u8; N]>
    ensures { result ≡ sized N N (unhex text.now) }
{
    let mut bytes = [0; N];
    read_hexadecimal(text, &mut bytes)?;
    Some(bytes)
}

// The same into a slice, for as many bytes as are known only when it runs.
pub fn read_hexadecimal(text: &[u8], bytes: &mut [u8]) -> Option<()>
    ensures { when (is_some result) bytes.new ≡ sized (length bytes.old) (length bytes.old) (unhex text.now) }
{
    if text.len() % 2 != 0 || text.len() / 2 != bytes.len() {
        return None;
    }
    fill(text, bytes)
}

// Fills `bytes` from as many pairs of digits; nothing where one is no digit.
fn fill(text: &[u8], bytes: &mut [u8]) -> Option<()>
    requires { length text.now ≡ 2 * length bytes.old }
    ensures { when (is_some result) bytes.new ≡ unhex text.now }
{
    // By number: of a slice that is written through `zip` no proof learns what it holds.
    for (i, byte) in bytes.iter_mut().enumerate() {
        let high = digit_value(text[2 * i])?;
        let low = digit_value(text[2 * i + 1])?;
        *byte = 16 * high + low;
    }
    Some(())
}

// The value of one digit, 0-9 or A-F. By ranges, since `to_digit` takes a-f too.
fn digit_value(c: u8) -> Option<u8>
    ensures value { result ≡ digit c }
    ensures small { IfSome result (λ d. d < 16) }
{
    match c {
        b'0'..=b'9' => Some(c - b'0'),
        b'A'..=b'F' => Some(c - b'A' + 10),
        _ => None,
    }
}
