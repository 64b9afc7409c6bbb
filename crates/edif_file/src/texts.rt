//! The text of a fault of a design file.
ghost use Rattle.std.specs.Prelude.{◌≡◌, ◌++◌, IfOk, OnOk};
ghost use Rattle.std.specs.Fmt.{decimal};
ghost use Rattle.edif_spec.specs.FaultText.{at_place, clash_word, fault_text as text_of, kind_word, lex_word, meaning_text, tree_word};

use edif_lexer::LexKind;
use edif_spec::{ClashKind, EdifFault, Kind, MeaningFault};
use edif_spelling_spec::TreeKind;
use itoa::Buffer;
use netlist_schema::{NoMemory, Text};
use std::alloc::Global;

/// The text of a fault: its kind and its place, as in `BadNumber at 72`. A clash names the earlier place too, a form outside the
/// profile its keyword, and a limit its number.
pub fn fault_text(alloc: Global, fault: &EdifFault) -> Result<Text, NoMemory>
    ensures { IfOk result (λ text. text ≡ text_of fault.now) }
{
    let mut out = Vec::new(alloc);
    match fault {
        EdifFault::Lex { kind, place } => put_at(lex_text(*kind), *place, &mut out)?,
        EdifFault::Tree { kind, place } => put_at(tree_text(*kind), *place, &mut out)?,
        EdifFault::Meaning(fault) => put_meaning(fault, &mut out)?,
    }
    Ok(Text::of(out))
}

/// Appends the text of a fault of meaning.
fn put_meaning(fault: &MeaningFault, out: &mut Vec<u8>) -> Result<(), NoMemory>
    ensures { OnOk result (out.new.items ≡ out.old.items ++ meaning_text fault.now) }
{
    match fault {
        MeaningFault::NotInProfile { keyword, place } => {
            out.extend_from_slice(b"NotInProfile ")?;
            put_at(keyword.as_slice(), *place, out)
        }
        MeaningFault::At { kind, place } => put_at(kind_text(*kind), *place, out),
        MeaningFault::Clash {
            kind,
            place,
            earlier,
        } => {
            put_at(clash_text(*kind), *place, out)?;
            out.extend_from_slice(b", first at ")?;
            put_number(*earlier, out)
        }
        MeaningFault::OverLimit { limit, place } => {
            out.extend_from_slice(b"OverLimit ")?;
            let mut buffer = Buffer::new();
            put_at(buffer.format(*limit).as_bytes(), *place, out)
        }
    }
}

/// Appends what stands at a place, and the place.
fn put_at(what: &[u8], place: u64, out: &mut Vec<u8>) -> Result<(), NoMemory>
    ensures { OnOk result (out.new.items ≡ out.old.items ++ at_place what.now place) }
{
    out.extend_from_slice(what)?;
    out.extend_from_slice(b" at ")?;
    put_number(place, out)
}

/// Appends a number in decimal digits.
fn put_number(number: u64, out: &mut Vec<u8>) -> Result<(), NoMemory>
    ensures { OnOk result (out.new.items ≡ out.old.items ++ decimal number) }
{
    let mut buffer = Buffer::new();
    out.extend_from_slice(buffer.format(number).as_bytes())?;
    Ok(())
}

/// The word of a lexical fault.
fn lex_text(kind: LexKind) -> &'static [u8]
    ensures { result.now ≡ lex_word kind }
{
    match kind {
        LexKind::BadNumber => b"BadNumber",
        LexKind::BadByte => b"BadByte",
        LexKind::BadEscape => b"BadEscape",
        LexKind::BadString => b"BadString",
    }
}

/// The word of a fault of tokens.
fn tree_text(kind: TreeKind) -> &'static [u8]
    ensures { result.now ≡ tree_word kind }
{
    match kind {
        TreeKind::NotForm => b"NotForm",
        TreeKind::ExtraClose => b"ExtraClose",
        TreeKind::TooDeep => b"TooDeep",
        TreeKind::Trailing => b"Trailing",
        TreeKind::Unended => b"Unended",
    }
}

/// The word of a fault of meaning at one place.
fn kind_text(kind: Kind) -> &'static [u8]
    ensures { result.now ≡ kind_word kind }
{
    match kind {
        Kind::BadForm => b"BadForm",
        Kind::BadVersion => b"BadVersion",
        Kind::BadLevel => b"BadLevel",
        Kind::NotNetlist => b"NotNetlist",
        Kind::Unresolved => b"Unresolved",
        Kind::Ambiguous => b"Ambiguous",
        Kind::BadIndex => b"BadIndex",
        Kind::WholeArray => b"WholeArray",
        Kind::BadWidth => b"BadWidth",
        Kind::BadPath => b"BadPath",
    }
}

/// The word of a fault because of an earlier form.
fn clash_text(kind: ClashKind) -> &'static [u8]
    ensures { result.now ≡ clash_word kind }
{
    match kind {
        ClashKind::SecondView => b"SecondView",
        ClashKind::SecondDesign => b"SecondDesign",
        ClashKind::Duplicate => b"Duplicate",
        ClashKind::EndTwice => b"EndTwice",
    }
}
