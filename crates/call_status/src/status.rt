//! What a call answers.
ghost use Rattle.std.specs.Prelude.{◌≡◌};
ghost use Rattle.call_status.specs.Numbers.{number_of};

/// What a call answers.
#[derive(Clone, Copy, Debug, PartialEq, Eq)]
pub enum Status {
    Done,
    /// Not for what was opened, or not for what the seat holds. Nothing was changed.
    WrongUse,
    /// The bytes are no design. The text says what is wrong, and where.
    BadDesign,
    /// The line says no operation.
    BadLine,
    /// A later commit wrote what the transaction read. The text says the object and the version; it is empty where there was no memory for
    /// it, and else never.
    Conflict,
    /// The history has no room for the call.
    LogFull,
    /// An allocation was refused.
    NoMemory,
    /// No item is left.
    End,
    /// The design has no top.
    NoTop,
    /// There are too many bytes.
    TooLarge,
    /// There is no such version yet.
    NoVersion,
    /// The version is kept no longer.
    Gone,
    /// The design has no occurrence at the path.
    NoPath,
    /// The sink had a fault.
    WriteFault,
    /// The item has no such field, or none is shown.
    NoField,
    /// The call was done, and an allocation was refused to its text.
    TextLost,
    /// The occurrence has no such net, or no such port, or the port has no such bit.
    NoName,
    /// No net joins the bit there.
    NoNet,
    /// The two nets are not connected.
    Apart,
}

impl Status {
    /// The number of a status, as `netdb.h` has it. 15 is none: the calls of that file give it by themselves.
    pub fn number(self) -> u32
        ensures { result ≡ number_of self }
    {
        match self {
            Status::Done => 0,
            Status::WrongUse => 1,
            Status::BadDesign => 2,
            Status::BadLine => 3,
            Status::Conflict => 4,
            Status::LogFull => 5,
            Status::NoMemory => 6,
            Status::End => 7,
            Status::NoTop => 8,
            Status::TooLarge => 9,
            Status::NoVersion => 10,
            Status::Gone => 11,
            Status::NoPath => 12,
            Status::WriteFault => 13,
            Status::NoField => 14,
            Status::TextLost => 16,
            Status::NoName => 17,
            Status::NoNet => 18,
            Status::Apart => 19,
        }
    }
}
