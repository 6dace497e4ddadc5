// What a command is lent.

// 32 random bytes, and 64 bytes to work in.
#[derive(Drop)]
pub struct Lent<'a> {
    pub random: &'a [u8; 32],
    pub area: &'a mut [u8; 64],
}
