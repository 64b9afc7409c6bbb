//! What holds of the definitions. A law is what a function without parameters ensures; there is nothing to run.
ghost use Rattle.netdb_spec.specs.Laws.{GivenIsDue};

use script_spec::{one_bad_line, room_suffices, script_or_bad};

/// Each status comes where its cause holds.
pub fn given_is_due()
    ensures { GivenIsDue }
{
    script_or_bad();
    one_bad_line();
    room_suffices();
}
