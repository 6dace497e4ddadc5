// Why a load or a command is refused.

// Why a load is refused, and the number by which the card answers it; an accepted load is 0. Nothing is stored then.
#[derive(Clone, Copy, PartialEq, Eq, Debug)]
pub enum LoadRefusal {
    // The text is not a key load.
    Malformed = 1,
    // A limit is not set.
    Unset = 2,
    // A key with this reference is held already.
    AlreadyHeld = 3,
    // No key row is free.
    NoRow = 4,
}

// Why a command is refused before its APDU is looked at, and the number by which the card answers it. Nothing is touched then.
#[derive(Clone, Copy, PartialEq, Eq, Debug)]
pub enum HostRefusal {
    // The reply buffer has fewer than 258 bytes, or the work area fewer than 64.
    ShortMemory = 5,
    // There are not 32 random bytes.
    RandomBytes = 6,
}
