// Worked examples of the card's meaning, checked by computing it.
#![tactic(auto)]

ghost use Rattle.worked.specs.Worked.{Day, Sides, RandomRuns};

// A whole small day runs as it is written down: load, power on, discovery, master, connection, start, a fare in two blocks,
// its repetition, fetch, total, power off.
pub fn day_runs()
    ensures { Day }
{}

// The examples on either side of a line.
pub fn sides_stand()
    ensures { Sides }
{}

// Runs drawn at random, against a model that was written apart.
pub fn random_runs_agree()
    ensures { RandomRuns }
{}
