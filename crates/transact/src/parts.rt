// The parts of a card.
use manage::Core;

// What seals, the application, and all the rest of a card. They are lent whole, so what changes the rest says that the sealer
// stays.
#[derive(Drop)]
pub struct Parts<S, A> {
    pub sealer: S,
    pub application: A,
    pub core: Core,
}
