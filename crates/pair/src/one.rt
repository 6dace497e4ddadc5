// One call to one card.
ghost use Rattle.std.specs.Prelude.{◌≡◌, ℕ, false, [], IfOk};
ghost use Rattle.law.specs.Hashes.{keyed};
ghost use Rattle.law.specs.Step.{step};
ghost use Rattle.card.specs.View.{off_state, on_state, outcome};
ghost use Rattle.pair.specs.Lent.{Lent};
ghost use Rattle.pair.specs.declared.calls.Call.TheVariants.{Command};
ghost use Rattle.pair.specs.View.{call_of, done_answer, state_of, takes};

use crate::calls::{Answer, Call, CommandCall, Done};
use crate::cards::Card;
use crate::host::Host;
use application::Application;
use card::{Off, Powered};
use sealing::Sealer;
use std::alloc::{AllocError, Global};

// What a call came to that lends no memory.
fn plain(answer: Answer, heap: Global) -> Done
    ensures answer { result.answer ≡ answer }
    ensures buffer { result.buffer.items ≡ [] }
    ensures work { result.work.items ≡ [] }
{
    Done {
        answer,
        buffer: Vec::new(heap),
        work: Vec::new(heap),
    }
}

// A call that the card's power state does not take is not made.
fn not_taken<S: Sealer, A: Application>(
    card: Card<S, A>,
    call: &Call<'_>,
    heap: Global,
) -> (Card<S, A>, Done)
    requires { takes card call.now ≡ false }
    ensures said { step keyed S.seals A.acts (state_of A.contents card) (call_of call.now) ≡ outcome (state_of A.contents result.0) (done_answer result.1) }
    ensures memory { (fill : ℕ) → Lent fill call.now result.1 }
{
    (card, plain(Answer::NotTaken, heap))
}

// A call to a card that is off.
fn call_off<S: Sealer, A: Application>(
    mut card: Off<S, A>,
    call: &Call<'_>,
    heap: Global,
) -> (Card<S, A>, Done)
    ensures said { step keyed S.seals A.acts (off_state A.contents card) (call_of call.now) ≡ outcome (state_of A.contents result.0) (done_answer result.1) }
    ensures memory { (fill : ℕ) → Lent fill call.now result.1 }
{
    match *call {
        Call::Load(text) => {
            let answer = Answer::Loaded(card.load(text));
            (Card::Off(card), plain(answer, heap))
        }
        Call::PowerOn => (Card::On(card.power_on()), plain(Answer::Powered, heap)),
        Call::PowerOff | Call::Command(_) => not_taken(Card::Off(card), call, heap),
    }
}

// A command, with a reply buffer and a work area that the host lends it.
fn commanded<S: Sealer, A: Application>(
    card: &mut Powered<S, A>,
    call: CommandCall<'_>,
    host: Host,
) -> Result<Done, AllocError>
    ensures said { IfOk result (λ d. step keyed S.seals A.acts (on_state A.contents card.old) (call_of (Command call.entry)) ≡ outcome (on_state A.contents card.new) (done_answer d)) }
    ensures memory { IfOk result (λ d. Lent host.fill (Command call.entry) d) }
{
    let mut buffer = host.lend(call.buffer)?;
    let mut work = host.lend(call.work)?;
    let result = card.command(call.apdu, call.random, &mut buffer, &mut work);
    Ok(Done {
        answer: Answer::Replied(result),
        buffer,
        work,
    })
}

// A call to a powered card.
fn call_on<S: Sealer + Drop, A: Application + Drop>(
    mut card: Powered<S, A>,
    call: &Call<'_>,
    host: Host,
) -> Result<(Card<S, A>, Done), AllocError>
    ensures said { IfOk result (λ m. step keyed S.seals A.acts (on_state A.contents card) (call_of call.now) ≡ outcome (state_of A.contents m.0) (done_answer m.1)) }
    ensures memory { IfOk result (λ m. Lent host.fill call.now m.1) }
{
    match *call {
        Call::Command(command) => {
            let done = commanded(&mut card, command, host)?;
            Ok((Card::On(card), done))
        }
        Call::PowerOff => Ok((
            Card::Off(card.power_off()),
            plain(Answer::Powered, host.heap),
        )),
        Call::PowerOn | Call::Load(_) => Ok(not_taken(Card::On(card), call, host.heap)),
    }
}

// A call to a card: one that its power state does not take is not made.
pub(crate) fn one<S: Sealer + Drop, A: Application + Drop>(
    card: Card<S, A>,
    call: &Call<'_>,
    host: Host,
) -> Result<(Card<S, A>, Done), AllocError>
    ensures said { IfOk result (λ m. step keyed S.seals A.acts (state_of A.contents card) (call_of call.now) ≡ outcome (state_of A.contents m.0) (done_answer m.1)) }
    ensures memory { IfOk result (λ m. Lent host.fill call.now m.1) }
{
    match card {
        Card::Off(card) => Ok(call_off(card, call, host.heap)),
        Card::On(card) => call_on(card, call, host),
    }
}
