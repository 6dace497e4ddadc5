// Whether a block goes on with what is pending.
ghost use Rattle.std.specs.Prelude.{◌≡◌};
ghost use Rattle.request.specs.View.{kind_of};
ghost use Rattle.law.specs.Request.{same_kind};

use apdu::Kind;

// Whether two kinds are the same. The rules tell it by their P1; a test of its own, so that it is said once for both that ask.
pub(crate) fn is_same(a: Kind, b: Kind) -> bool
    ensures { result ≡ same_kind (kind_of a) (kind_of b) }
{
    a == b
}
