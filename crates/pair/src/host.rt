// The host of the cards.
ghost use Rattle.std.specs.Prelude.{◌≡◌, replicate, IfOk};

use std::alloc::{AllocError, Global};

// What lends each command its memory: the byte that all of it holds then, and the heap that it is made on.
#[derive(Clone, Copy)]
pub(crate) struct Host {
    pub(crate) fill: u8,
    pub(crate) heap: Global,
}

impl Host {
    // So many bytes of memory, each of them the fill byte.
    pub(crate) fn lend(self, len: usize) -> Result<Vec<u8>, AllocError>
        ensures { IfOk result (λ v. v.items ≡ replicate len self.fill) }
    {
        vec![in self.heap; self.fill; len]
    }
}
