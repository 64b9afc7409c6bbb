//! A command of the program.

/// What is wanted of the design of a file.
#[derive(Clone, Copy, Debug)]
pub enum Wanted {
    /// Its canonical text.
    Text,
    /// The items of its flattening, at most so many where there is a limit.
    Items { limit: Option<u32> },
    /// The pins of its flattening, as a table.
    Pins,
    /// The canonical text of what is left of it without the cells that its top does not use.
    Used,
    /// The items of its flattening, made by so many workers.
    Spread { workers: u32 },
    /// What an electrical check finds in it.
    Findings,
}

/// A command.
#[derive(Clone, Copy, Debug)]
pub enum Command<'a> {
    /// What is wanted of the design of the file of this name.
    Show {
        name: &'a str,
        wanted: Wanted,
    },
    /// A run of the scripts of the files of these names on the design of the file of this name.
    Run {
        name: &'a str,
        scripts: &'a [String],
    },
    /// The generated design and run of this size.
    Generate {
        size: u32,
    },
    /// Such a run, and the uses of its last version.
    Uses {
        name: &'a str,
        scripts: &'a [String],
    },
    /// Whether the file of the second name is the report of a run of the scripts of the files behind it on the design of the first.
    Check {
        name: &'a str,
        report: &'a str,
        scripts: &'a [String],
    },
}
