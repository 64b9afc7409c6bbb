//! Who calls next, by the text of a report.
ghost use Rattle.std.specs.Prelude.{◌≡◌, ◌<◌, ◌++◌, ◌∷◌, List, ℕ, MatchOption, decimal};
ghost use Rattle.report_parts.specs.Parts.{CallOf, Heads, HeadsNone};

use itoa::Buffer;

/// Who calls next, and whether the call is a release.
#[derive(Clone, Copy, Debug, PartialEq, Eq)]
pub struct Next {
    pub caller: u32,
    pub release: bool,
}

/// What stands behind the front of a text, where it begins so. Takes no memory.
pub fn after<'a>(text: &'a [u8], front: &[u8]) -> Option<&'a [u8]>
    ensures { MatchOption result ((rest : List ℕ) → ¬ (text.now ≡ front.now ++ rest)) (λ rest. text.now ≡ front.now ++ rest.now) }
{
    text.strip_prefix(front)
}

/// What stands behind a number and a blank, where a text begins so.
fn behind_number(text: &[u8], number: u64) -> Option<&[u8]>
    ensures { MatchOption result ((rest : List ℕ) → ¬ (text.now ≡ decimal number ++ 32 ∷ rest)) (λ rest. text.now ≡ decimal number ++ 32 ∷ rest.now) }
{
    let mut buffer = Buffer::new();
    match after(text, buffer.format(number).as_bytes()) {
        Some(rest) => after(rest, b" "),
        None => None,
    }
}

/// The event of the caller of this number with which a text goes on, where it does.
fn by_caller(text: &[u8], caller: u32) -> Option<Next>
    ensures { MatchOption result ((more : List ℕ) → ¬ (text.now ≡ decimal caller ++ 32 ∷ more)) (CallOf text.now caller) }
{
    match behind_number(text, u64::from(caller)) {
        Some(call) => Some(Next {
            caller,
            release: call.first() == Some(&b'r'),
        }),
        None => None,
    }
}

/// A guess at the caller: the number that the first two bytes of a text are, as far as they are digits.
fn guess(text: &[u8]) -> u32 {
    let mut number = 0u32;
    for place in 0..text.len().min(2) {
        if !text[place].is_ascii_digit() {
            return number;
        }
        number = number
            .wrapping_mul(10)
            .wrapping_add(u32::from(text[place].wrapping_sub(b'0')));
    }
    number
}

/// The event of one of so many callers with which a text goes on, where it does. The one that the text seems to name is tried first.
fn by_some(text: &[u8], callers: u32) -> Option<Next>
    ensures { MatchOption result ((caller : ℕ) (more : List ℕ) → caller < callers → ¬ (text.now ≡ decimal caller ++ 32 ∷ more))
        (λ next. (next.caller < callers) × CallOf text.now next.caller next) }
{
    let first = guess(text);
    if first < callers {
        if let Some(next) = by_caller(text, first) {
            return Some(next);
        }
    }
    for caller in 0..callers {
        if let Some(next) = by_caller(text, caller) {
            return Some(next);
        }
    }
    None
}

/// The event of this number with which a text goes on, where it does, by one of so many callers.
pub fn next_caller(text: &[u8], number: u64, callers: u32) -> Option<Next>
    ensures { MatchOption result (HeadsNone text.now number callers) (Heads text.now number callers) }
{
    let Some(words) = behind_number(text, number) else {
        return None;
    };
    match after(words, b"caller ") {
        Some(rest) => by_some(rest, callers),
        None => None,
    }
}
