// Replies given in blocks.
ghost use Rattle.std.specs.Prelude.{◌≡◌, ◌≤◌, length};
ghost use Rattle.buffer.specs.Held.{held};
ghost use Rattle.apdu.specs.View.{shape_of};
ghost use Rattle.apdu.specs.Writing.{Proper};
ghost use Rattle.request.specs.View.{kind_of};
ghost use Rattle.law.specs.Request.{discovery, same_kind};
ghost use Rattle.law.specs.Step.{says, given, gives_reply, replies_as, answers, goes_on, discovery_object};
ghost use Rattle.manage.specs.View.{core_of, pending_of, Replied};

use crate::card_core::Core;
use crate::pending::{Pending, Waiting};
use crate::same::is_same;
use crate::told::Told;
use apdu::{Body, Kind, Le, Status};
use buffer::{Buffer, Store};
use replies::block::reply_block;
use replies::reply::{DiscoveryReply, LONGEST, Reply};

impl Core {
    // Gives up to so many bytes of a reply from a place on, and remembers how far that went. The reply is lent, here and above it,
    // so that it is copied once, into what is pending.
    fn give_block(&mut self, waiting: &mut Waiting, most: Le, reply: &mut [u8]) -> usize
        requires most { most.wanted ≤ 256 }
        requires room { 258 ≤ length reply.old }
        ensures { Replied (given (core_of self.old) (kind_of waiting.old.kind) (held waiting.old.reply) waiting.old.given most.wanted) self.old self.new reply.old reply.new result }
    {
        let block = reply_block(
            waiting.reply.as_slice(),
            waiting.given,
            usize::from(most.wanted),
        );
        let given = waiting.given + block.bytes.len();
        let end = if block.more {
            Status::MoreToFetch
        } else {
            Status::Done
        };
        let told = Told::block(block.bytes, end).write(reply);
        waiting.given = given;
        self.pending = Pending::Reply(*waiting);
        told
    }

    // A reply block carries Le alone.
    #[tactic(auto, using(apdu::proofs::Within::le_within))]
    fn give(&mut self, waiting: &mut Waiting, body: Body<'_>, reply: &mut [u8]) -> usize
        requires proper { Proper (shape_of body) }
        requires room { 258 ≤ length reply.old }
        ensures { Replied (gives_reply (core_of self.old) (kind_of waiting.old.kind) (held waiting.old.reply) waiting.old.given (shape_of body.entry)) self.old self.new reply.old reply.new result }
    {
        let Some(most) = body.le_alone() else {
            return self.say(Status::WrongLength, reply);
        };
        self.give_block(waiting, most, reply)
    }

    // A status word alone, and nothing changes.
    fn say(&self, status: Status, reply: &mut [u8]) -> usize
        requires { 258 ≤ length reply.old }
        ensures { Replied (says (core_of self.now) status) self.now self.now reply.old reply.new result }
    {
        Told::from(status).write(reply)
    }

    // P1 is to be that of the reply that waits.
    fn give_as(
        &mut self,
        kind: Kind,
        waiting: &mut Waiting,
        body: Body<'_>,
        reply: &mut [u8],
    ) -> usize
        requires proper { Proper (shape_of body) }
        requires room { 258 ≤ length reply.old }
        ensures { Replied (replies_as (core_of self.old) (kind_of kind) (held waiting.old.reply) waiting.old.given (shape_of body.entry) (same_kind (kind_of waiting.old.kind) (kind_of kind))) self.old self.new reply.old reply.new result }
    {
        if !is_same(waiting.kind, kind) {
            return self.say(Status::WrongParameters, reply);
        }
        self.give(waiting, body, reply)
    }

    // P2 A0: the reply that waits, from its first byte.
    pub fn answer(&mut self, kind: Kind, body: Body<'_>, reply: &mut [u8]) -> usize
        requires proper { Proper (shape_of body) }
        requires room { 258 ≤ length reply.old }
        ensures { Replied (answers (core_of self.old) (kind_of kind) (shape_of body.entry) (pending_of self.old.pending)) self.old self.new reply.old reply.new result }
    {
        let Pending::Reply(mut whole) = self.pending else {
            return self.say(Status::NotNow, reply);
        };
        whole.given = 0;
        self.give_as(kind, &mut whole, body, reply)
    }

    // P2 20: the reply that waits, from where the last block ended.
    pub fn go_on(&mut self, kind: Kind, body: Body<'_>, reply: &mut [u8]) -> usize
        requires proper { Proper (shape_of body) }
        requires room { 258 ≤ length reply.old }
        ensures { Replied (goes_on (core_of self.old) (kind_of kind) (shape_of body.entry) (pending_of self.old.pending)) self.old self.new reply.old reply.new result }
    {
        let Pending::Reply(mut waiting) = self.pending else {
            return self.say(Status::NotNow, reply);
        };
        self.give_as(kind, &mut waiting, body, reply)
    }

    // A discovery: what the card says of itself, made anew.
    pub fn discover(&mut self, body: Body<'_>, reply: &mut [u8]) -> usize
        requires proper { Proper (shape_of body) }
        requires room { 258 ≤ length reply.old }
        ensures { Replied (gives_reply (core_of self.old) discovery (discovery_object self.old.required self.old.failures) 0 (shape_of body.entry)) self.old self.new reply.old reply.new result }
    {
        let mut waiting = Waiting {
            kind: Kind::Discovery,
            reply: Buffer::new(),
            given: 0,
        };
        waiting.reply.append(self.discovery().as_slice()).unwrap();
        self.give(&mut waiting, body, reply)
    }

    // The object of a discovery.
    fn discovery(&self) -> Store<LONGEST>
        ensures { held result ≡ discovery_object self.now.required self.now.failures }
    {
        let reply = Reply::Discovery(DiscoveryReply {
            required: self.required,
            failures: self.failures,
        });
        reply.object()
    }
}
