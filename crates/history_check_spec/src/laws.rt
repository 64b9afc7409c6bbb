//! What holds of printed reports. A law is what a function without parameters ensures; there is nothing to run.
ghost use Rattle.history_check_spec.specs.Laws.{OnePrinted};

/// A text is the report of one history at most.
pub fn one_printed()
    ensures { OnePrinted }
{}
