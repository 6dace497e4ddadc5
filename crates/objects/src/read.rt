//! A reader of the objects inside: each is taken from the front.
ghost use Rattle.std.specs.Prelude.{◌≡◌, ◌≤◌, length, IfSome, IfNone, if◌then◌else◌, Some, None, nat_eq};
ghost use Rattle.std.specs.Option.{option_map};
ghost use Rattle.objects.specs.Fields.{field, taken, left, unread};

/// A tag, with the least and the greatest length of its value.
#[derive(Clone, Copy)]
pub struct Field {
    pub tag: u8,
    pub least: usize,
    pub most: usize,
}

/// The bytes that are still to be read.
#[derive(Clone, Copy)]
pub struct Reader<'a> {
    rest: &'a [u8],
}

impl<'a> Reader<'a> {
    /// A reader of all these bytes.
    pub fn new(rest: &'a [u8]) -> Reader<'a>
        ensures { unread result ≡ rest.now }
    {
        Reader { rest }
    }

    /// Takes the first object's value, if it is one of this field.
    #[tactic(auto, unfolding(crate::specs::Fields::taken, crate::specs::Fields::left))]
    pub fn take(&mut self, field: Field) -> Option<&'a [u8]>
        ensures value { option_map (λ x. x.now) result ≡ taken field (unread self.old) }
        ensures rest { unread self.new ≡ left field (unread self.old) }
        ensures stays { IfNone result (unread self.new ≡ unread self.old) }
        ensures size { IfSome result (λ v. (field.least ≤ length v.now) × (length v.now ≤ field.most)) }
    {
        let (&[tag, size], rest) = self.rest.split_first_chunk::<2>()?;
        let size = usize::from(size);
        if tag != field.tag || !(field.least..=field.most).contains(&size) {
            return None;
        }
        let (value, rest) = rest.split_at_checked(size)?;
        self.rest = rest;
        Some(value)
    }

    /// Takes the first object's value, if it has this tag and `N` bytes.
    pub fn take_array<const N: usize>(&mut self, tag: u8) -> Option<&'a [u8; N]>
        ensures value { option_map (λ x. x.now) result ≡ taken (field tag N N) (unread self.old) }
        ensures rest { unread self.new ≡ left (field tag N N) (unread self.old) }
        ensures stays { IfNone result (unread self.new ≡ unread self.old) }
    {
        let value = self.take(Field {
            tag,
            least: N,
            most: N,
        })?;
        value.as_array()
    }

    /// Says that nothing is left to be read.
    pub fn end(&self) -> Option<()>
        ensures { result ≡ (if nat_eq (length (unread self.now)) 0 then Some tt else None) }
    {
        self.rest.is_empty().then_some(())
    }
}
