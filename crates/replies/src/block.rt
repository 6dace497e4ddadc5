//! Blocks: a reply goes out in parts as long as the terminal asks for, an answer in parts of the container's size.
ghost use Rattle.std.specs.Prelude.{◌≡◌, ◌<◌};
ghost use Rattle.std.specs.Option.{option_map};
ghost use Rattle.replies.specs.Blocks.{seen, block_of, cut_block, cut_count};

/// A part of a string of bytes. Both are there in every case, so it is no Option.
#[derive(Clone, Copy)]
pub struct Block<'a> {
    pub bytes: &'a [u8],
    /// Whether more bytes remain behind these.
    pub more: bool,
}

/// The reply block from a place on, of up to `most` bytes.
pub fn reply_block(whole: &[u8], place: usize, most: usize) -> Block<'_>
    ensures { seen result ≡ block_of whole.now place most }
{
    let rest = whole.get(place..).unwrap_or(&[]);
    Block {
        bytes: &rest[..most.min(rest.len())],
        more: most < rest.len(),
    }
}

/// The answer block of this number, counted from 0, where the answer is cut at `size` bytes.
pub fn answer_block(whole: &[u8], size: u8, number: u8) -> Option<Block<'_>>
    ensures { option_map seen result ≡ cut_block size whole.now number }
{
    let first = usize::from(number) * usize::from(size);
    // Not by `get(first..)`, which gives an empty part at the very end.
    (first < whole.len()).then(|| reply_block(whole, first, usize::from(size)))
}

/// How many blocks of `size` bytes an answer makes.
pub fn block_count(whole: &[u8], size: u8) -> usize
    requires { 0 < size }
    ensures { result ≡ cut_count size whole.now }
{
    whole.len().div_ceil(usize::from(size))
}
