// A card that is powered.
ghost use Rattle.std.specs.Prelude.{◌≡◌, ◌≤◌, length, replicate, IfOk};
ghost use Rattle.manage.specs.View.{core_of};
ghost use Rattle.law.specs.Request.{request};
ghost use Rattle.law.specs.Hashes.{keyed};
ghost use Rattle.law.specs.Calls.{command, power_off, powered};
ghost use Rattle.law.specs.Step.{step, carries, requests};
ghost use Rattle.card.specs.Refusals.{host_refusal};
ghost use Rattle.card.specs.View.{off_state, on_state, outcome, answered, refusal_in, Memory, Answers};

use crate::off::Off;
use crate::refusal::HostRefusal;
use application::Application;
use manage::Pending;
use sealing::Sealer;
use secret::WorkArea;
use transact::Parts;

// The fewest bytes of a reply buffer and of a work area.
const REPLY: usize = 258;

const WORK: usize = 64;

// A powered card takes only command and power off.
#[derive(Drop)]
pub struct Powered<S, A> {
    pub(crate) parts: Parts<S, A>,
}

impl<S: Sealer, A: Application> Powered<S, A> {
    // Turns the power off: connections, gathered blocks and waiting replies are dropped, and nothing else.
    pub fn power_off(self) -> Off<S, A>
        ensures { step keyed S.seals A.acts (on_state A.contents self) power_off ≡ outcome (off_state A.contents result) powered }
    {
        let Powered { mut parts } = self;
        parts.core.tables.drop_connections();
        parts.core.pending = Pending::Nothing;
        Off { parts }
    }

    // Takes a command: an APDU, 32 random bytes, a reply buffer of at least 258 bytes and a work area of at least 64. Writes
    // the reply, data and then SW1 SW2, at the start of the buffer, and answers its length. The work area is zero afterwards,
    // all of it. A refusal is told from the lengths alone, and touches nothing.
    pub fn command(
        &mut self,
        apdu: &[u8],
        random: &[u8],
        reply: &mut [u8],
        work: &mut [u8],
    ) -> Result<usize, HostRefusal>
        ensures said { step keyed S.seals A.acts (on_state A.contents self.old) (command apdu.now random.now (length reply.old) (length work.old)) ≡ outcome (on_state A.contents self.new) (answered result reply.new) }
        ensures memory { Memory result reply.old reply.new work.old work.new }
        ensures refused { refusal_in result ≡ host_refusal (length reply.old) (length work.old) (length random.now) }
    {
        let random = lent(reply.len(), work.len(), random)?;
        Ok(self.answer_guarded(apdu, random, reply, work))
    }

    // Answers a command, and wipes the work area on the way out: a slice, as the host lends it, since all of it is wiped.
    fn answer_guarded(
        &mut self,
        apdu: &[u8],
        random: &[u8; 32],
        reply: &mut [u8],
        work: &mut [u8],
    ) -> usize
        requires room { 258 ≤ length reply.old }
        requires area { 64 ≤ length work.old }
        ensures said { Answers (carries S.seals A.acts (on_state A.contents self.old) (requests keyed S.seals (core_of self.old.parts.core) apdu.now random.now (request apdu.now))) (on_state A.contents self.new) reply.old reply.new result }
        ensures wiped { work.new ≡ replicate (length work.old) 0 }
    {
        let area = WorkArea(work);
        match self.told(
            apdu,
            random,
            reply,
            area.0.first_chunk_mut::<WORK>().unwrap(),
        ) {
            Some(n) => n,
            None => self.parts.application.run(apdu, reply),
        }
    }
}

// The random bytes that the host lends, or its refusal, told from the lengths of reply buffer, work area and random bytes.
fn lent(reply: usize, work: usize, random: &[u8]) -> Result<&[u8; 32], HostRefusal>
    ensures refusal { refusal_in result ≡ host_refusal reply work (length random.now) }
    ensures fits { IfOk result (λ r. (258 ≤ reply) × (64 ≤ work) × (r.now ≡ random.now)) }
{
    if reply < REPLY || work < WORK {
        return Err(HostRefusal::ShortMemory);
    }
    random.as_array().ok_or(HostRefusal::RandomBytes)
}
