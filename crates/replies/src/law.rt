//! Functions that carry what is proved of the definitions themselves.
ghost use Rattle.replies.specs.Back.{ReadsBack};
ghost use Rattle.replies.specs.Examples.{Worked};
ghost use Rattle.replies.specs.Joining.{Joins};

/// The blocks of a reply and those of an answer, joined, are the whole.
pub fn blocks_join()
    ensures { Joins }
{}

/// A reply is a complete object to whoever reads it.
pub fn replies_read_back()
    ensures { ReadsBack }
{}

/// The worked examples of replies and blocks are as they are written down.
pub fn examples_stand()
    ensures { Worked }
{}
