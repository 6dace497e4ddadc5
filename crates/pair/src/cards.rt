// A card in either power state, and two of them.
ghost use Rattle.std.specs.Prelude.{◌≡◌};
ghost use Rattle.law.specs.Step.{new};
ghost use Rattle.pair.specs.View.{state_of};

use crate::calls::Done;
use application::Application;
use card::{Off, Powered};
use sealing::Sealer;

// A card, off or powered.
#[derive(Drop)]
pub enum Card<S, A> {
    Off(Off<S, A>),
    On(Powered<S, A>),
}

// Two cards with sealers of one kind.
#[derive(Drop)]
pub struct Pair<S, L, R> {
    pub left: Card<S, L>,
    pub right: Card<S, R>,
}

// Two cards after a run, and what each call came to on either: a list for each card, since each is run by itself and the law
// speaks of both lists.
#[derive(Drop)]
pub struct Ran<S, L, R> {
    pub pair: Pair<S, L, R>,
    pub left: Vec<Done>,
    pub right: Vec<Done>,
}

impl<S: Sealer, L: Application, R: Application> Pair<S, L, R> {
    // Two new cards, blank and off, which both require the channel or both do not.
    pub fn new(left_sealer: S, right_sealer: S, left: L, right: R, required: bool) -> Pair<S, L, R>
        ensures left { state_of L.contents result.left ≡ new required (L.contents left) }
        ensures right { state_of R.contents result.right ≡ new required (R.contents right) }
    {
        Pair {
            left: Card::Off(Off::new(left_sealer, left, required)),
            right: Card::Off(Off::new(right_sealer, right, required)),
        }
    }
}
