//! What was opened.
use netdb_desk::Desk;
use netdb_questions::Questions;
use netdb_view::View;

/// What was opened.
#[derive(Drop)]
pub enum Inside {
    /// Bytes that are no design: there is only the text of what is wrong with them.
    Refused,
    Desk(Desk),
    View(View),
    Questions(Questions),
}

/// What was opened, and the text of the last call on it that has one.
#[derive(Drop)]
pub struct Opened {
    pub inside: Inside,
    pub text: Vec<u8>,
}
