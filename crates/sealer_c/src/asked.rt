// What a caller asks for: whether its lengths fit.
ghost use Rattle.std.specs.Prelude.{◌≡◌, length};
ghost use Rattle.std.specs.Option.{option_copied};
ghost use Rattle.sealer_c.specs.Calls.{keys_of, body_fits, roomy};

// The key bytes, if they are 40.
pub fn keys_of(keys: &[u8]) -> Option<&[u8; 40]>
    ensures { option_copied result ≡ keys_of keys.now }
{
    keys.as_array()
}

// Whether these can be a body.
pub fn is_body(bytes: &[u8]) -> bool
    ensures { result ≡ body_fits (length bytes.now) }
{
    (2..=261).contains(&bytes.len())
}

// Whether a buffer has room for every sealed string.
pub fn is_roomy(buffer: &[u8]) -> bool
    ensures { result ≡ roomy (length buffer.now) }
{
    288 <= buffer.len()
}
