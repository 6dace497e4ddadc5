// A list of calls to two cards.
ghost use Rattle.std.specs.Prelude.{IfOk};
ghost use Rattle.pair.specs.Followed.{Followed, LawfulRun};
ghost use Rattle.pair.specs.View.{state_of};

use crate::calls::{Call, Done};
use crate::cards::{Card, Pair, Ran};
use crate::host::Host;
use crate::one::one;
use application::Application;
use sealing::Sealer;
use std::alloc::{AllocError, Global};

// Makes the calls to one card, in order.
fn run_card<S: Sealer + Drop, A: Application + Drop>(
    mut card: Card<S, A>,
    calls: &[Call<'_>],
    host: Host,
) -> Result<(Card<S, A>, Vec<Done>), AllocError>
    ensures { IfOk result (λ m. Followed S.seals A.acts host.fill (state_of A.contents card) calls.now m.1.items (state_of A.contents m.0)) }
{
    let mut dones = Vec::new(host.heap);
    for call in calls {
        let (next, done) = one(card, call, host)?;
        card = next;
        dones.push(done)?;
    }
    Ok((card, dones))
}

// Makes the calls to both cards, the left one first. Apart from `run`, whose law is proved from these two clauses.
fn run_both<S: Sealer + Drop, L: Application + Drop, R: Application + Drop>(
    pair: Pair<S, L, R>,
    calls: &[Call<'_>],
    host: Host,
) -> Result<Ran<S, L, R>, AllocError>
    ensures left { IfOk result (λ ran. Followed S.seals L.acts host.fill (state_of L.contents pair.left) calls.now ran.left.items (state_of L.contents ran.pair.left)) }
    ensures right { IfOk result (λ ran. Followed S.seals R.acts host.fill (state_of R.contents pair.right) calls.now ran.right.items (state_of R.contents ran.pair.right)) }
{
    let Pair { left, right } = pair;
    let (left, left_dones) = run_card(left, calls, host)?;
    let (right, right_dones) = run_card(right, calls, host)?;
    Ok(Ran {
        pair: Pair { left, right },
        left: left_dones,
        right: right_dones,
    })
}

// Makes the calls to both cards, in order. Each command is lent a reply buffer and a work area of its own lengths, all bytes
// `fill`. Every answer and both cards are as the law's run has them; and whatever calls both cards met before, since new,
// the whole law stands over those and these.
pub fn run<S: Sealer + Drop, L: Application + Drop, R: Application + Drop>(
    pair: Pair<S, L, R>,
    calls: &[Call<'_>],
    fill: u8,
    heap: Global,
) -> Result<Ran<S, L, R>, AllocError>
    ensures left { IfOk result (λ ran. Followed S.seals L.acts fill (state_of L.contents pair.left) calls.now ran.left.items (state_of L.contents ran.pair.left)) }
    ensures right { IfOk result (λ ran. Followed S.seals R.acts fill (state_of R.contents pair.right) calls.now ran.right.items (state_of R.contents ran.pair.right)) }
    ensures law { IfOk result (λ ran. LawfulRun S.seals L.acts R.acts (state_of L.contents pair.left) (state_of R.contents pair.right) calls.now ran.left.items ran.right.items (state_of L.contents ran.pair.left) (state_of R.contents ran.pair.right)) }
{
    run_both(pair, calls, Host { fill, heap })
}
