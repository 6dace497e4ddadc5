// What a powered card answers to a command, by what is asked.
ghost use Rattle.std.specs.Prelude.{◌≡◌, ◌≤◌, length, MatchOption};
ghost use Rattle.manage.specs.View.{core_of};
ghost use Rattle.law.specs.Hashes.{keyed};
ghost use Rattle.law.specs.Request.{request};
ghost use Rattle.law.specs.Step.{carries, plain, requests};
ghost use Rattle.card.specs.View.{on_state, Answers};

use crate::powered::Powered;
use apdu::{Status, put_status};
use application::Application;
use request::Request;
use sealing::Sealer;

impl<S: Sealer, A: Application> Powered<S, A> {
    // What is told to a command, written at the start of the reply buffer: its length; none where the application replies to it.
    // A status word is written as it is: a block that is told is lent until then, and stands nowhere else.
    #[tactic(auto, using(tables::proofs::Kept::all_kept))]
    pub(crate) fn told(
        &mut self,
        apdu: &[u8],
        random: &[u8; 32],
        reply: &mut [u8],
        area: &mut [u8; 64],
    ) -> Option<usize>
        requires { 258 ≤ length reply.old }
        ensures { MatchOption result ((requests keyed S.seals (core_of self.old.parts.core) apdu.now random.now (request apdu.now) ≡ plain apdu.now) × (self.new ≡ self.old) × (reply.new ≡ reply.old)) (λ n. Answers (carries S.seals A.acts (on_state A.contents self.old) (requests keyed S.seals (core_of self.old.parts.core) apdu.now random.now (request apdu.now))) (on_state A.contents self.new) reply.old reply.new n) }
    {
        match Request::read(apdu) {
            Request::Malformed => Some(put_status(reply, Status::WrongLength)),
            Request::Other if self.parts.core.required => {
                Some(put_status(reply, Status::ChannelRequired))
            }
            Request::Other => None,
            Request::Unlisted => Some(put_status(reply, Status::WrongParameters)),
            Request::Begin(kind, body) => {
                let status = self.parts.core.begin(kind, body, random, area);
                Some(put_status(reply, status))
            }
            Request::Continue(kind, body) => {
                let status = self.parts.core.resume(kind, body, random, area);
                Some(put_status(reply, status))
            }
            Request::Discover(body) => Some(self.parts.core.discover(body, reply)),
            Request::Answer(kind, body) => Some(self.parts.core.answer(kind, body, reply)),
            Request::GoOn(kind, body) => Some(self.parts.core.go_on(kind, body, reply)),
            Request::Block(asked) => Some(put_status(reply, self.parts.block(asked))),
            Request::Fetch(asked) => Some(self.parts.fetch(asked).write(reply)),
            Request::Discard(asked) => Some(put_status(reply, self.parts.discard(asked))),
        }
    }
}
