//! Words behind one another.
ghost use Rattle.std.specs.Prelude.{◌≡◌, ◌≤◌, ◌<◌, ◌+◌, ◌++◌, ◌∷◌, [], ℕ, IfSome, OnErr, OnOk, length, map, take};
ghost use Rattle.joined_words.specs.Words.{ended};

use netlist_schema::NoMemory;

/// How many bytes words have with one behind each: `None` where there is no such number.
#[inline(always)]
fn room_for(words: &[&[u8]]) -> Option<usize>
    ensures { IfSome result (λ room. (byte : ℕ) → length (ended byte (map (λ word. word.now) words.now)) ≡ room) }
{
    let mut room: usize = 0;
    for word in words {
        room = room.checked_add(word.len())?.checked_add(1)?;
    }
    Some(room)
}

/// Writes a word at a place. A single byte is put there without a call.
#[inline(always)]
fn put_bytes(word: &[u8], at: usize, line: &mut [u8])
    requires { at + length word.now ≤ length line.old }
    ensures long { length line.new ≡ length line.old }
    ensures text { take (at + length word.now) line.new ≡ take at line.old ++ word.now }
{
    match word {
        [only] => line[at] = *only,
        _ => line[at..at + word.len()].copy_from_slice(word),
    }
}

/// Writes a word and a byte behind it at a place, and tells the place behind them.
#[inline(always)]
fn put_word(word: &[u8], byte: u8, at: usize, line: &mut [u8]) -> usize
    requires { at + length word.now < length line.old }
    ensures place { result ≡ at + length word.now + 1 }
    ensures long { length line.new ≡ length line.old }
    ensures text { take result line.new ≡ take at line.old ++ (word.now ++ byte ∷ []) }
{
    put_bytes(word, at, line);
    let end = at + word.len();
    line[end] = byte;
    end + 1
}

/// Writes words with a byte behind each from a place on, and tells the place behind them.
#[inline(always)]
fn put_all(words: &[&[u8]], byte: u8, from: usize, line: &mut [u8]) -> usize
    requires { from + length (ended byte (map (λ word. word.now) words.now)) ≤ length line.old }
    ensures place { result ≡ from + length (ended byte (map (λ word. word.now) words.now)) }
    ensures long { length line.new ≡ length line.old }
    ensures text { take result line.new ≡ take from line.old ++ ended byte (map (λ word. word.now) words.now) }
{
    let mut at = from;
    for word in words {
        at = put_word(word, byte, at, line);
    }
    at
}

/// The length of a line behind so many bytes, where words with a byte behind each have so many, and then a last word and a byte come:
/// `None` where there is no such number.
#[inline(always)]
fn length_behind(before: usize, room: usize, last: &[u8]) -> Option<usize>
    ensures { IfSome result (λ whole. before + room + length last.now + 1 ≡ whole) }
{
    before
        .checked_add(room)?
        .checked_add(last.len())?
        .checked_add(1)
}

/// Writes words with one byte behind each from a place on, and then a last word with another byte behind it, up to the end.
#[inline(always)]
fn put_line(words: &[&[u8]], last: &[u8], between: u8, end: u8, from: usize, line: &mut [u8])
    requires { from + length (ended between (map (λ word. word.now) words.now)) + length last.now + 1 ≡ length line.old }
    ensures { line.new ≡ take from line.old ++ (ended between (map (λ word. word.now) words.now) ++ (last.now ++ end ∷ [])) }
{
    let at = put_all(words, between, from, line);
    put_word(last, end, at, line);
}

/// Appends words with one byte behind each, and then a last word with another byte behind it. After `NoMemory` the bytes are as before.
#[inline(always)]
pub fn push_words(
    words: &[&[u8]],
    last: &[u8],
    between: u8,
    end: u8,
    out: &mut Vec<u8>,
) -> Result<(), NoMemory>
    ensures ok { OnOk result (out.new.items ≡ out.old.items ++ (ended between (map (λ word. word.now) words.now) ++ (last.now ++ end ∷ []))) }
    ensures err { OnErr result (out.new.items ≡ out.old.items) }
{
    let before = out.len();
    let Some(room) = room_for(words) else {
        return Err(NoMemory);
    };
    let Some(whole) = length_behind(before, room, last) else {
        return Err(NoMemory);
    };
    out.resize(whole, 0)?;
    put_line(words, last, between, end, before, out.as_mut_slice());
    Ok(())
}
