// A reader over lines that end in LF.
ghost use Rattle.std.specs.Prelude.{◌≡◌};
ghost use Rattle.std.specs.Option.{option_map};
ghost use Rattle.personalise.specs.Left.{left};
ghost use Rattle.personalise.specs.Lines.{behind, lines_of, value, past, none, EndsAt};

// The lines that are not read yet.
#[derive(Drop)]
pub struct Reader<'a> {
    rest: &'a [u8],
}

impl<'a> Reader<'a> {
    // A reader at the first line.
    pub fn new(text: &'a [u8]) -> Reader<'a>
        ensures { left result ≡ lines_of text.now }
    {
        Reader { rest: text }
    }

    // The value of the next line, where that has the name; the reader then goes on to the line behind it.
    pub fn value(&mut self, name: &[u8]) -> Option<&'a [u8]>
        ensures value { option_map (λ x. x.now) result ≡ value name.now (left self.old) }
        ensures past { left self.new ≡ past name.now (left self.old) }
    {
        let end = line_end(self.rest)?;
        let value = value_of(&self.rest[0..end], name)?;
        self.rest = &self.rest[end + 1..];
        Some(value)
    }

    // No line is left.
    pub fn is_done(&self) -> bool
        ensures { result ≡ none (left self.now) }
    {
        line_end(self.rest).is_none()
    }
}

// What stands behind the name in a line that begins with it.
fn value_of<'a>(line: &'a [u8], name: &[u8]) -> Option<&'a [u8]>
    ensures { option_map (λ x. x.now) result ≡ behind name.now line.now }
{
    line.strip_prefix(name)
}

// Where the first line ends: the place of the first LF.
fn line_end(text: &[u8]) -> Option<usize>
    ensures { EndsAt text.now result }
{
    text.iter().position(|c| *c == b'\n')
}
