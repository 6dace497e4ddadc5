// A fare.

// A fare: its class, 0 to 7, and its amount.
#[derive(Clone, Copy, PartialEq, Eq, Debug)]
pub struct Fare {
    pub class: u8,
    pub amount: u32,
}
