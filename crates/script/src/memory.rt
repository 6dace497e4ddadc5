// A host's memory, after a call.
ghost use Rattle.std.specs.Prelude.{◌≡◌, Decides};
ghost use Rattle.script.specs.Memory.{All};

// Whether each byte has this value.
pub fn all_are(bytes: &[u8], value: u8) -> bool
    ensures { Decides result (All value bytes.now) }
{
    bytes.iter().all(|b| *b == value)
}
