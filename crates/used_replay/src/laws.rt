//! What holds of a history that is replayed. A law is what a function without parameters ensures; there is nothing to run.
ghost use Rattle.used_replay.specs.Replayed.{ReplayedIsHead, ReplayedRuns};

/// The accepted commits of a history, done again on its opening design, come to the design of its last version.
pub fn replayed_is_head()
    ensures { ReplayedIsHead }
{}

/// They are one list of operations, run one after the other.
pub fn replayed_runs()
    ensures { ReplayedRuns }
{}
