// What a call answers to C.
ghost use Rattle.std.specs.Prelude.{◌≡◌, ◌%◌, ◌<◌, Bool, true, false, eqb, length};
ghost use Rattle.std.specs.Fn.{FnOnceTakesAtMut, FnOnceReturnsAtMut};
ghost use Rattle.exports.specs.Calls.{answer, fitting, room};

// Whether the key has k bytes, and the buffer whole blocks of n bytes.
pub fn is_fitting(k: usize, n: usize, key: &[u8], buf: &[u8]) -> bool
    requires { 0 < n }
    ensures { result ≡ fitting k n key.now buf.now }
{
    key.len() == k && buf.len() % n == 0
}

// Whether the key has k bytes, and there is room for n bytes exactly.
pub fn is_room(k: usize, n: usize, key: &[u8], out: &[u8]) -> bool
    ensures { result ≡ room k n key.now out.now }
{
    key.len() == k && out.len() == n
}

// Where the lengths fit, does the work on the bytes and answers 0. Else it answers 1, and the bytes stay. The numbers are the
// C interface's, and are made here alone.
pub fn answering<F: FnOnce(&mut [u8])>(fits: bool, bytes: &mut [u8], work: F) -> u32
    requires { fits ≡ true → FnOnceTakesAtMut F.FnOnce work bytes.old }
    ensures answer { result ≡ answer fits }
    ensures done { fits ≡ true → FnOnceReturnsAtMut F.FnOnce work bytes.old tt bytes.new }
    ensures kept { fits ≡ false → bytes.new ≡ bytes.old }
{
    if !fits {
        return 1;
    }
    work(bytes);
    0
}
