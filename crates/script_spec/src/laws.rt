//! What holds of every script. A law is what a function without parameters ensures; there is nothing to run.
ghost use Rattle.script_spec.specs.Headline.{RoomSuffices};
ghost use Rattle.script_spec.specs.Laws.{ConflictsAreThere, LinesAreRead, LinesDiffer, ObjectsStay, OneBadLine, OneReport, OneScript, OneStep, OneTranscript, ScriptOrBad, SessionStays, TranscriptStays};

/// A script says one thing at most of the events of its caller, and ends in one way.
pub fn one_transcript()
    ensures { OneTranscript }
{}

/// A history has one report at most that its scripts fit.
pub fn one_report()
    ensures { OneReport }
{}

/// A text that is a script has no first bad line.
pub fn script_or_bad()
    ensures { ScriptOrBad }
{}

/// A text has one first bad line at most.
pub fn one_bad_line()
    ensures { OneBadLine }
{}

/// A line says one step at most.
pub fn one_step()
    ensures { OneStep }
{}

/// A text is one script at most.
pub fn one_script()
    ensures { OneScript }
{}

/// Where the lines of scripts take no more places than a history has, no script meets a full log.
pub fn room_suffices()
    ensures { RoomSuffices }
{}

/// The canonical line of an operation says it.
pub fn lines_are_read()
    ensures { LinesAreRead }
{}

/// Two operations that can be said have not one line.
pub fn lines_differ()
    ensures { LinesDiffer }
{}

/// A session of a caller who makes no more calls stays as the history goes on.
pub fn session_stays()
    ensures { SessionStays }
{}

/// The object that a refused commit names is there at its turn, and keeps its text as the history goes on.
pub fn objects_stay()
    ensures there { ConflictsAreThere }
    ensures text { ObjectsStay }
{}

/// The transcript of a session is the same text as the history goes on, so a script that prints it at its turn prints what the
/// report has.
pub fn transcript_stays()
    ensures { TranscriptStays }
{}
