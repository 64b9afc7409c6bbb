//! What a log says.
use db_spec::{Answer, Event};
use edit_spec::Reply;
use netlist_schema::Object;

/// An answer, with no row in it.
#[derive(Clone, Copy, PartialEq, Eq)]
pub enum Said {
    Pinned { pin: u64, version: u64 },
    NoVersion(u64),
    Gone(u64),
    Released,
    Collected(u32),
    /// One operation, which was done, made this version.
    Done(u64),
    /// Other operations made a version.
    Committed,
    Conflict { object: Object, version: u64 },
}

/// Whether the one reply is that the change is made.
fn is_done(replies: &[Reply]) -> bool {
    replies.len() == 1 && matches!(replies.first(), Some(Reply::Done))
}

fn told(answer: &Answer) -> Said {
    match answer {
        Answer::Pinned { pin, version } => Said::Pinned {
            pin: *pin,
            version: *version,
        },
        Answer::NoVersion(last) => Said::NoVersion(*last),
        Answer::Gone(least) => Said::Gone(*least),
        Answer::Released => Said::Released,
        Answer::Collected(dropped) => Said::Collected(*dropped),
        Answer::Committed { version, replies } => {
            if is_done(replies.as_slice()) {
                Said::Done(*version)
            } else {
                Said::Committed
            }
        }
        Answer::Conflict { object, version } => Said::Conflict {
            object: *object,
            version: *version,
        },
    }
}

/// Whether these are the callers and the answers of a log.
pub fn is_log(log: &[Event], wanted: &[(u32, Said)]) -> bool {
    log.len() == wanted.len()
        && log.iter().zip(wanted).all(|(event, (caller, answer))| event.caller == *caller
            && told(&event.answer) == *answer)
}

/// How many events of a log are no new pins.
pub fn others(log: &[Event]) -> usize {
    log.iter()
        .filter(|event| !matches!(event.answer, Answer::Pinned { .. }))
        .count()
}
