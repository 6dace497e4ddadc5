// What an application on the card is.
#![tactic(auto)]

ghost use Rattle.std.specs.Prelude.{◌≡◌, ◌≤◌, length};
ghost use Rattle.apdu.specs.Reply.{fronted};
ghost use Rattle.application.specs.Acts.{Acts, Bounded};

// An application holds contents, and answers every command. Its meaning is what it replies and what it holds then.
pub trait Application {
    ghost Contents: { Type 0 };

    ghost contents: { Self → Contents };

    ghost acts: { Acts Contents };

    // Runs a command of any bytes and any length: writes the reply at the start of the buffer, which the card lends since
    // there is no heap, leaves the rest, and gives the reply's length. The buffer may be longer, so it is no array.
    fn run(&mut self, command: &[u8], buffer: &mut [u8]) -> usize
        requires { 258 ≤ length buffer.old }
        ensures len { result ≡ length (acts.reply (contents self.old) command.now) }
        ensures written { buffer.new ≡ fronted (acts.reply (contents self.old) command.now) buffer.old }
        ensures holds { contents self.new ≡ acts.next (contents self.old) command.now };

    ghost bounded: { Bounded acts };
}
