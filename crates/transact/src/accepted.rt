// Accepted commands, each settled by one sealed answer.
ghost use Rattle.std.specs.Prelude.{◌≡◌, ◌+◌, ◌≤◌, length};
ghost use Rattle.buffer.specs.Held.{held};
ghost use Rattle.sealing.specs.Sealing.{text};
ghost use Rattle.sealing.specs.declared.suite.Direction.TheVariants.{Reply as AsReply};
ghost use Rattle.transact.specs.Judged.{Judges, body_in, fits_command};
ghost use Rattle.law.specs.Session.{judged};
ghost use Rattle.tables.specs.View.{connection_of};

use application::Application;
use buffer::{Buffer, ROOM};
use sealing::{Direction, Opened, Sealer, Text};
use tables::Connection;

// An accepted command that is not answered yet: what opened. It cannot be let go, copied or made elsewhere; only sealing its
// answer spends it.
pub struct Accepted {
    // The places of its body, not the body: the text could not be used while the token lived.
    opened: Opened,
}

// Why a complete command is not accepted.
#[derive(Clone, Copy, PartialEq, Eq, Debug)]
pub enum Refusal {
    // It does not open as it must.
    Wrong,
    // It does, and the limit alone is in the way.
    Spent,
}

// The most bytes of an application's reply.
const REPLY: usize = 258;

impl Accepted {
    // Runs the application on the command's body, and seals its reply. Only this spends the token.
    pub fn settle<S: Sealer, A: Application>(
        self,
        sealer: &S,
        application: &mut A,
        connection: &Connection,
        plain: &[u8],
    ) -> Buffer
        requires { self.opened.at + self.opened.len ≤ length plain.now }
        ensures answer { held result ≡ S.seals.sealed connection.now.suite connection.now.keys (text AsReply self.opened.number (A.acts.reply (A.contents application.old) (body_in self plain.now))) }
        ensures holds { A.contents application.new ≡ A.acts.next (A.contents application.old) (body_in self plain.now) }
    {
        let Accepted { opened } = self;
        let mut reply = [0; REPLY];
        let n = application.run(opened.body(plain).unwrap(), &mut reply);
        let text = Text {
            direction: Direction::Reply,
            number: opened.number,
            body: &reply[..n],
        };
        let mut answer = [0; ROOM];
        let sealed = sealer.seal(connection.suite, &connection.keys, text, &mut answer);
        Buffer::of(answer, sealed)
    }
}

// Whether what opened is a command with this number, of four body bytes or more.
fn is_command(opened: &Opened, number: u64) -> bool
    ensures { result ≡ fits_command opened.now number }
{
    opened.direction == Direction::Command && opened.number == number && opened.len >= 4
}

// Opens joined blocks in place, and accepts them where they are the connection's next command and the limit lets it.
pub fn accept<S: Sealer>(
    sealer: &S,
    connection: &Connection,
    limit: u64,
    plain: &mut [u8],
) -> Result<Accepted, Refusal>
    ensures { Judges (judged S.seals (connection_of connection.now) limit plain.old) connection.now.count limit plain.new result }
{
    let opened = sealer
        .open(connection.suite, &connection.keys, plain)
        .ok_or(Refusal::Wrong)?;
    if !is_command(&opened, connection.count) {
        return Err(Refusal::Wrong);
    }
    if connection.count >= limit {
        return Err(Refusal::Spent);
    }
    Ok(Accepted { opened })
}
