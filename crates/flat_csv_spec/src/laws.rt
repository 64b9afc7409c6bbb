//! What holds of the definitions. A law is what a function without parameters ensures; there is nothing to run.

ghost use Rattle.flat_csv_spec.specs.Example.{CounterTableIsShown, FieldsAreQuoted};

/// The pin table of a small counter.
pub fn counter_table_is_shown()
    ensures { CounterTableIsShown }
{}

/// A row in which two of three fields stand in quotes.
pub fn fields_are_quoted()
    ensures { FieldsAreQuoted }
{}
