// Objects gathered from command blocks, and carried out.
ghost use Rattle.std.specs.Prelude.{◌≡◌, ◌<◌, ◌≤◌, [], ◌++◌, length};
ghost use Rattle.buffer.specs.Held.{held};
ghost use Rattle.apdu.specs.View.{shape_of};
ghost use Rattle.objects.specs.Joined.{object};
ghost use Rattle.request.specs.View.{kind_of};
ghost use Rattle.law.specs.Request.{asked, same_kind};
ghost use Rattle.law.specs.Hashes.{keyed};
ghost use Rattle.law.specs.Associate.{verdict};
ghost use Rattle.law.specs.Step.{says, put, waits, nothing, decides, joined, joins, continues_as, continues};
ghost use Rattle.tables.specs.View.{tables_of};
ghost use Rattle.manage.specs.View.{core_of, pending_of, with_pending, refused_core, granted, Said};

use crate::card_core::Core;
use crate::pending::{Gathered, Pending, Waiting};
use crate::same::is_same;
use apdu::{Body, Kind, Status};
use associate::{Lent, carry_out};
use buffer::{Buffer, ROOM, Store};
use objects::join::{Unread, read_object};

// The most bytes of blocks that are joined: what a buffer holds, and one block more.
const JOINED: usize = ROOM + 255;

impl Core {
    // A refusal is counted where it is for a wrong MAC. Nothing is pending after it.
    fn refuse(&mut self, status: Status) -> Status
        ensures status { result ≡ status }
        ensures core { self.new ≡ refused_core self.old status }
    {
        self.pending = Pending::Nothing;
        if status == Status::NotAuthentic {
            self.count_failure();
        }
        status
    }

    // What was granted: a termination is done, and after anything else a reply waits. A match by name, so that a new kind is seen.
    fn grant(&mut self, kind: Kind, reply: Buffer) -> Status
        ensures said { says (core_of self.new) result ≡ granted (core_of self.old) (kind_of kind) (held reply) }
        ensures tables { self.new.tables ≡ self.old.tables }
    {
        match kind {
            Kind::Terminate => {
                self.pending = Pending::Nothing;
                Status::Done
            }
            Kind::Discovery | Kind::Master | Kind::Connection | Kind::Start => {
                self.pending = Pending::Reply(Waiting {
                    kind,
                    reply,
                    given: 0,
                });
                Status::ReplyWaits
            }
        }
    }

    // A whole object is carried out.
    fn carry_out(&mut self, kind: Kind, value: &[u8], lent: Lent<'_>) -> Status
        ensures { Said (decides keyed (core_of self.old) lent.entry.random.now (kind_of kind) (asked (kind_of kind) value.now) (verdict keyed (tables_of self.old.tables) lent.entry.random.now (asked (kind_of kind) value.now))) self.old self.new result }
    {
        match carry_out(&mut self.tables, kind, value, lent.random, lent.area) {
            Ok(reply) => self.grant(kind, reply),
            Err(status) => self.refuse(status),
        }
    }

    // Joined blocks: no object, the beginning of one, or a whole one.
    fn judge(&mut self, kind: Kind, bytes: &[u8], lent: Lent<'_>) -> Status
        ensures { Said (joined keyed (core_of self.old) lent.entry.random.now (kind_of kind) bytes.now (object bytes.now)) self.old self.new result }
    {
        match read_object(bytes) {
            Err(Unread::Bad) => self.refuse(Status::WrongData),
            Err(Unread::Incomplete) => {
                self.pending = Pending::Object(Gathered {
                    kind,
                    bytes: Buffer::from_slice(bytes),
                });
                Status::MoreToSend
            }
            Ok(value) => self.carry_out(kind, value, lent),
        }
    }

    // A block behind what was gathered. What the room for both does not hold is longer than any object, so it is none.
    fn judge_both(&mut self, kind: Kind, gathered: &[u8], part: &[u8], lent: Lent<'_>) -> Status
        requires { length gathered.now ≤ 288 }
        ensures { Said (joined keyed (core_of self.old) lent.entry.random.now (kind_of kind) (gathered.now ++ part.now) (object (gathered.now ++ part.now))) self.old self.new result }
    {
        let mut joined: Store<JOINED> = Store::new();
        joined.append(gathered).unwrap();
        let Ok(()) = joined.append(part) else {
            return self.refuse(Status::WrongData);
        };
        self.judge(kind, joined.as_slice(), lent)
    }

    // A command block: data alone joins what was gathered, and drops whatever else was pending.
    fn join(&mut self, kind: Kind, gathered: &[u8], body: Body<'_>, lent: Lent<'_>) -> Status
        requires { length gathered.now ≤ 288 }
        ensures { Said (joins keyed (core_of self.old) lent.entry.random.now (kind_of kind) gathered.now (shape_of body.entry)) self.old self.new result }
    {
        let Some(part) = body.data_alone() else {
            return Status::WrongLength;
        };
        self.judge_both(kind, gathered, part.bytes, lent)
    }

    // P2 80: a first command block. Its area is a slice, here and in `resume`: a host lends one of any length from 64 on.
    pub fn begin(
        &mut self,
        kind: Kind,
        body: Body<'_>,
        random: &[u8; 32],
        area: &mut [u8],
    ) -> Status
        requires area { 64 ≤ length area.old }
        ensures { Said (joins keyed (core_of self.old) random.now (kind_of kind) [] (shape_of body.entry)) self.old self.new result }
    {
        let area = area.first_chunk_mut::<64>().unwrap();
        self.join(kind, &[], body, Lent { random, area })
    }

    // P1 is to be that of the blocks that were gathered.
    fn join_as(&mut self, kind: Kind, gathered: Gathered, body: Body<'_>, lent: Lent<'_>) -> Status
        ensures { Said (continues_as keyed (core_of self.old) lent.entry.random.now (kind_of kind) (held gathered.bytes) (shape_of body.entry) (same_kind (kind_of gathered.kind) (kind_of kind))) self.old self.new result }
    {
        if !is_same(gathered.kind, kind) {
            return Status::WrongParameters;
        }
        self.join(kind, gathered.bytes.as_slice(), body, lent)
    }

    // P2 00: a next command block, which joins what was gathered.
    pub fn resume(
        &mut self,
        kind: Kind,
        body: Body<'_>,
        random: &[u8; 32],
        area: &mut [u8],
    ) -> Status
        requires area { 64 ≤ length area.old }
        ensures { Said (continues keyed (core_of self.old) random.now (kind_of kind) (shape_of body.entry) (pending_of self.old.pending)) self.old self.new result }
    {
        let Pending::Object(gathered) = self.pending else {
            return Status::NotNow;
        };
        let area = area.first_chunk_mut::<64>().unwrap();
        self.join_as(kind, gathered, body, Lent { random, area })
    }
}

#[cfg(test)]
mod tests {
    use super::*;
    use apdu::Data;
    use tables::Tables;

    const RANDOM: [u8; 32] = [0; 32];

    fn core() -> Core {
        Core {
            tables: Tables::new(),
            pending: Pending::Nothing,
            failures: 0,
            required: false,
        }
    }

    fn first(core: &mut Core, bytes: &[u8]) -> Status {
        let block = Body::Data(Data { bytes });
        core.begin(Kind::Master, block, &RANDOM, &mut [0; 64])
    }

    fn next(core: &mut Core, bytes: &[u8]) -> Status {
        let block = Body::Data(Data { bytes });
        core.resume(Kind::Master, block, &RANDOM, &mut [0; 64])
    }

    // Blocks that no command carries, since they have more than 255 bytes, or none.
    #[test]
    fn blocks_of_any_length_are_judged(rt: HostRuntime) {
        let mut core = core();
        assert!(rt; first(&mut core, &[0x73; 600]) == Status::WrongData);
        assert!(rt; first(&mut core, &[]) == Status::MoreToSend);
        assert!(rt; next(&mut core, &[0x73, 0x81, 0xFF]) == Status::MoreToSend);
        assert!(rt; next(&mut core, &[0; 256]) == Status::WrongData);
        assert!(rt; next(&mut core, &[0]) == Status::NotNow);
        assert!(rt; first(&mut core, &[0x73, 0x81, 0xFF]) == Status::MoreToSend);
        assert!(rt; next(&mut core, &[0; 2000]) == Status::WrongData);
        assert!(rt; next(&mut core, &[0]) == Status::NotNow);
    }
}
