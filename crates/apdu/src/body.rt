// What stands behind the header of a command, and its parts. They are of any length, since a session takes any body: who needs a
// bound asks for it, and a command that was read keeps it.

// Data, 1 to 255 bytes where it was read.
#[derive(Clone, Copy)]
pub struct Data<'a> {
    pub bytes: &'a [u8],
}

// How many bytes of reply are wanted, 1 to 256 where it was read.
#[derive(Clone, Copy)]
pub struct Le {
    pub wanted: u16,
}

// What stands behind the header of a command. Four cases and not two Options: a command is judged by which case it is.
#[derive(Clone, Copy)]
pub enum Body<'a> {
    // Nothing.
    Bare,
    // Le alone.
    Le(Le),
    // Data alone.
    Data(Data<'a>),
    // Data, and how many bytes of reply are wanted.
    Both(Data<'a>, Le),
}
