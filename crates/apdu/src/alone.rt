// What stands alone behind the header of a command.
ghost use Rattle.std.specs.Prelude.{◌≡◌};
ghost use Rattle.std.specs.Option.{option_map};
ghost use Rattle.apdu.specs.Alone.{le_alone, data_alone};
ghost use Rattle.apdu.specs.View.{shape_of};

use crate::body::{Body, Data, Le};

impl<'a> Body<'a> {
    // How many bytes are asked for, where nothing else stands there.
    pub fn le_alone(self) -> Option<Le>
        ensures { option_map (λ le. le.wanted) result ≡ le_alone (shape_of self.entry) }
    {
        match self {
            Body::Le(le) => Some(le),
            Body::Bare | Body::Data(_) | Body::Both(_, _) => None,
        }
    }

    // The data, where nothing else stands there.
    pub fn data_alone(self) -> Option<Data<'a>>
        ensures { option_map (λ d. d.bytes.now) result ≡ data_alone (shape_of self.entry) }
    {
        match self {
            Body::Data(data) => Some(data),
            Body::Bare | Body::Le(_) | Body::Both(_, _) => None,
        }
    }
}
