// All of a card but its sealer and its application.
ghost use Rattle.std.specs.Prelude.{◌≡◌};
ghost use Rattle.law.specs.Step.{one_more};
ghost use Rattle.manage.specs.View.{with_failures};

use crate::pending::Pending;
use tables::Tables;

// The tables, what is pending, how often a MAC or a command was wrong, and whether the card requires the channel.
#[derive(Clone, Copy)]
pub struct Core {
    pub tables: Tables,
    pub pending: Pending,
    pub failures: u8,
    pub required: bool,
}

impl Core {
    // Counts a failure; the count stays at 255.
    pub fn count_failure(&mut self)
        ensures { self.new ≡ with_failures self.old (one_more self.old.failures) }
    {
        self.failures = self.failures.saturating_add(1);
    }
}
