// What a fare counter holds.
ghost use Rattle.std.specs.Prelude.{◌≤◌};

use crate::fare::Fare;

// Up to 32 fares, in the order in which they were appended.
// No Model and no ArrayVec: the type is Copy, which neither can be where the places behind count are forgotten. No `Store` of
// `buffer`'s: it holds bytes, and one of any items would have to be given what stands in its free places.
#[derive(Clone, Copy)]
pub struct FareCounter {
    pub(crate) fares: [Fare; FareCounter::ROOM],
    pub(crate) count: usize,
    ghost room: { count ≤ 32 },
}

impl FareCounter {
    // How many fares a counter can hold.
    pub const ROOM: usize = 32;
}
