// A command APDU.
use crate::body::Body;

// A command: its header and what stands behind it.
#[derive(Clone, Copy)]
pub struct Apdu<'a> {
    pub cla: u8,
    pub ins: u8,
    pub p1: u8,
    pub p2: u8,
    pub body: Body<'a>,
}
