//! The texts of replies and objects.
ghost use Rattle.std.specs.Prelude.{◌≡◌, ◌∷◌, [], ◌++◌, codes, OnErr, OnOk};
ghost use Rattle.std.specs.Fmt.{decimal};
ghost use Rattle.std.specs.Option.{option_map_or};
ghost use Rattle.edif_names.specs.Parts.{Grows};
ghost use Rattle.flat_lines_spec.specs.Lines.{cell_text, spaced};
ghost use Rattle.script_spec.specs.Texts.{cell_words, end_words, ends_text, leaf_words, library_text, object_text, object_words, reply_text};
ghost use Rattle.script_texts.specs.Parts.{behind_blanks, more_ends};

use crate::words::{push_cell, push_digits, push_number, push_shown, push_word};
use edit_spec::{CellName, EndName, Reply};
use netlist_schema::{CellId, Ident, LibId, NoMemory, Object, Property, Shown};
use std::alloc::Global;

/// Appends the text of a reply, without a line feed. After `NoMemory` the bytes are as before.
pub fn reply_text(alloc: Global, reply: &Reply, out: &mut Vec<u8>) -> Result<(), NoMemory>
    ensures ok { OnOk result (out.new.items ≡ out.old.items ++ reply_text reply.now) }
    ensures err { OnErr result (out.new.items ≡ out.old.items) }
{
    let before = out.len();
    if push_reply(alloc, reply, out).is_err() {
        out.truncate(before);
        return Err(NoMemory);
    }
    Ok(())
}

/// Appends the text of an object, which names what stands in the design: `directory` and a library, `interface` or `contents`
/// and a library and a cell, or `notes`. Where the design has nothing of that number, nothing stands for its name. After
/// `NoMemory` the bytes are as before.
pub fn object_text<S: Shown>(
    _alloc: Global,
    design: &S,
    object: &Object,
    out: &mut Vec<u8>,
) -> Result<(), NoMemory>
    ensures ok { OnOk result (out.new.items ≡ out.old.items ++ object_text (S.design design.now) object.now) }
    ensures err { OnErr result (out.new.items ≡ out.old.items) }
{
    let before = out.len();
    if push_bare_object(design, *object, out).is_err() {
        out.truncate(before);
        return Err(NoMemory);
    }
    Ok(())
}

/// Appends bytes. After `NoMemory` the bytes are as before.
fn push_bytes(bytes: &[u8], out: &mut Vec<u8>) -> Result<(), NoMemory>
    ensures ok { OnOk result (out.new.items ≡ out.old.items ++ bytes.now) }
    ensures grows { Grows out.old.items out.new.items }
{
    out.extend_from_slice(bytes)?;
    Ok(())
}

/// Appends a word and a number. After `NoMemory` some bytes may stand behind those before.
fn push_counted(word: &[u8], number: u64, out: &mut Vec<u8>) -> Result<(), NoMemory>
    ensures ok { OnOk result (out.new.items ≡ out.old.items ++ spaced (word.now ∷ decimal number ∷ [])) }
    ensures grows { Grows out.old.items out.new.items }
{
    push_bytes(word, out)?;
    push_number(number, out)
}

/// Appends the net that has a bit already. After `NoMemory` some bytes may stand behind those before.
fn push_joined(net: &Ident, out: &mut Vec<u8>) -> Result<(), NoMemory>
    ensures ok { OnOk result (out.new.items ≡ out.old.items ++ spaced (codes "already-joined" ∷ net.now ∷ [])) }
    ensures grows { Grows out.old.items out.new.items }
{
    push_bytes(b"already-joined", out)?;
    push_word(net.as_slice(), out)
}

/// Appends a word and a number, each behind a blank. After `NoMemory` some bytes may stand behind those before.
pub fn push_size(word: &[u8], number: u32, out: &mut Vec<u8>) -> Result<(), NoMemory>
    ensures ok { OnOk result (out.new.items ≡ out.old.items ++ behind_blanks (word.now ∷ decimal number ∷ [])) }
    ensures grows { Grows out.old.items out.new.items }
{
    push_word(word, out)?;
    push_number(u64::from(number), out)
}

/// Appends the mark of a leaf behind a blank. After `NoMemory` some bytes may stand behind those before.
fn push_leaf(leaf: bool, out: &mut Vec<u8>) -> Result<(), NoMemory>
    ensures ok { OnOk result (out.new.items ≡ out.old.items ++ behind_blanks (leaf_words leaf)) }
    ensures grows { Grows out.old.items out.new.items }
{
    if leaf {
        return push_word(b"leaf", out);
    }
    Ok(())
}

/// Appends the counts of a cell. After `NoMemory` some bytes may stand behind those before.
fn push_counts(
    ports: u32,
    insts: u32,
    nets: u32,
    leaf: bool,
    out: &mut Vec<u8>,
) -> Result<(), NoMemory>
    ensures ok { OnOk result (out.new.items ≡ out.old.items ++ reply_text (Reply.Cell ports insts nets leaf)) }
    ensures grows { Grows out.old.items out.new.items }
{
    push_bytes(b"cell", out)?;
    push_size(b"ports", ports, out)?;
    push_size(b"insts", insts, out)?;
    push_size(b"nets", nets, out)?;
    push_leaf(leaf, out)
}

/// Appends the cell and the properties of an instance. After `NoMemory` some bytes may stand behind those before.
fn push_inst(
    alloc: Global,
    of: &CellName,
    properties: &[Property],
    out: &mut Vec<u8>,
) -> Result<(), NoMemory>
    ensures ok { OnOk result (out.new.items ≡ out.old.items ++ reply_text (Reply.Inst of.now properties.now)) }
    ensures grows { Grows out.old.items out.new.items }
{
    push_bytes(b"inst", out)?;
    push_cell(of, out)?;
    push_shown(alloc, properties, out)
}

/// The name of an end's instance, `-` where it has none.
fn inst_name(inst: &Option<Ident>) -> &[u8]
    ensures { result.now ≡ option_map_or (λ name. name) inst.now (codes "-") }
{
    match inst {
        Some(name) => name.as_slice(),
        None => b"-",
    }
}

/// Appends an end, each word behind a blank. After `NoMemory` some bytes may stand behind those before.
fn push_end(end: &EndName, out: &mut Vec<u8>) -> Result<(), NoMemory>
    ensures ok { OnOk result (out.new.items ≡ out.old.items ++ behind_blanks (end_words end.now)) }
    ensures grows { Grows out.old.items out.new.items }
{
    push_word(inst_name(&end.inst), out)?;
    push_word(end.port.as_slice(), out)?;
    push_number(u64::from(end.bit), out)
}

/// Appends ends, each behind `;`. After `NoMemory` some bytes may stand behind those before.
fn push_more_ends(ends: &[EndName], out: &mut Vec<u8>) -> Result<(), NoMemory>
    ensures ok { OnOk result (out.new.items ≡ out.old.items ++ more_ends ends.now) }
    ensures grows { Grows out.old.items out.new.items }
{
    for end in ends {
        out.push(b';')?;
        push_end(end, out)?;
    }
    Ok(())
}

/// Appends ends with `;` between them. After `NoMemory` some bytes may stand behind those before.
fn push_ends(ends: &[EndName], out: &mut Vec<u8>) -> Result<(), NoMemory>
    ensures ok { OnOk result (out.new.items ≡ out.old.items ++ ends_text ends.now) }
    ensures grows { Grows out.old.items out.new.items }
{
    match ends.split_first() {
        None => Ok(()),
        Some((first, rest)) => {
            push_end(first, out)?;
            push_more_ends(rest, out)
        }
    }
}

/// Appends the ends of a net. After `NoMemory` some bytes may stand behind those before.
fn push_net(ends: &[EndName], out: &mut Vec<u8>) -> Result<(), NoMemory>
    ensures ok { OnOk result (out.new.items ≡ out.old.items ++ reply_text (Reply.Net ends.now)) }
    ensures grows { Grows out.old.items out.new.items }
{
    push_bytes(b"ends", out)?;
    push_ends(ends, out)
}

/// Appends the text of a reply. After `NoMemory` some bytes may stand behind those before.
pub fn push_reply(alloc: Global, reply: &Reply, out: &mut Vec<u8>) -> Result<(), NoMemory>
    ensures ok { OnOk result (out.new.items ≡ out.old.items ++ reply_text reply.now) }
    ensures grows { Grows out.old.items out.new.items }
{
    match reply {
        Reply::Done => push_bytes(b"done", out),
        Reply::Cell {
            ports,
            insts,
            nets,
            leaf,
        } => push_counts(*ports, *insts, *nets, *leaf, out),
        Reply::Net { ends } => push_net(ends.as_slice(), out),
        Reply::Inst { of, properties } => push_inst(alloc, of, properties.as_slice(), out),
        Reply::Copies(count) => push_counted(b"copies", u64::from(*count), out),
        Reply::NoLib => push_bytes(b"no-lib", out),
        Reply::NoCell => push_bytes(b"no-cell", out),
        Reply::NoInst => push_bytes(b"no-inst", out),
        Reply::NoNet => push_bytes(b"no-net", out),
        Reply::NoPort => push_bytes(b"no-port", out),
        Reply::BadBit { width } => push_counted(b"bad-bit", u64::from(*width), out),
        Reply::Taken => push_bytes(b"taken", out),
        Reply::AlreadyJoined { net } => push_joined(net, out),
        Reply::NotJoined => push_bytes(b"not-joined", out),
        Reply::IsLeaf => push_bytes(b"is-leaf", out),
        Reply::IsCyclic => push_bytes(b"is-cyclic", out),
        Reply::LaterLibrary => push_bytes(b"later-library", out),
        Reply::NoPath => push_bytes(b"no-path", out),
        Reply::NoNote => push_bytes(b"no-note", out),
        Reply::NoTop => push_bytes(b"no-top", out),
        Reply::TooMany { limit } => push_counted(b"too-many", *limit, out),
    }
}

/// The identifier of a library; nothing where there is no such library.
fn lib_name<S: Shown>(design: &S, id: LibId) -> &[u8]
    ensures { result.now ≡ library_text (S.design design.now) id }
{
    match design.lib(id) {
        Some(head) => head.name.id.as_slice(),
        None => &[],
    }
}

/// The identifier of a cell; nothing where there is no such cell.
fn cell_name<S: Shown>(design: &S, id: CellId) -> &[u8]
    ensures { result.now ≡ cell_text (S.design design.now) id }
{
    match design.cell(id) {
        Some(body) => body.name.id.as_slice(),
        None => &[],
    }
}

/// Appends the names of a cell's library and of the cell, each behind a blank. After `NoMemory` some bytes may stand behind those
/// before.
fn push_id<S: Shown>(design: &S, id: CellId, out: &mut Vec<u8>) -> Result<(), NoMemory>
    ensures ok { OnOk result (out.new.items ≡ out.old.items ++ behind_blanks (cell_words (S.design design.now) id)) }
    ensures grows { Grows out.old.items out.new.items }
{
    push_word(lib_name(design, id.lib), out)?;
    push_word(cell_name(design, id), out)
}

/// Appends an object, each word behind a blank. After `NoMemory` some bytes may stand behind those before.
pub fn push_object<S: Shown>(design: &S, object: Object, out: &mut Vec<u8>) -> Result<(), NoMemory>
    ensures ok { OnOk result (out.new.items ≡ out.old.items ++ behind_blanks (object_words (S.design design.now) object)) }
    ensures grows { Grows out.old.items out.new.items }
{
    match object {
        Object::Directory(lib) => {
            push_word(b"directory", out)?;
            push_word(lib_name(design, lib), out)
        }
        Object::Interface(id) => {
            push_word(b"interface", out)?;
            push_id(design, id, out)
        }
        Object::Contents(id) => {
            push_word(b"contents", out)?;
            push_id(design, id, out)
        }
        Object::Notes => push_word(b"notes", out),
    }
}

/// Appends an object. After `NoMemory` some bytes may stand behind those before.
fn push_bare_object<S: Shown>(design: &S, object: Object, out: &mut Vec<u8>) -> Result<(), NoMemory>
    ensures ok { OnOk result (out.new.items ≡ out.old.items ++ object_text (S.design design.now) object) }
    ensures grows { Grows out.old.items out.new.items }
{
    match object {
        Object::Directory(lib) => {
            push_bytes(b"directory", out)?;
            push_word(lib_name(design, lib), out)
        }
        Object::Interface(id) => {
            push_bytes(b"interface", out)?;
            push_id(design, id, out)
        }
        Object::Contents(id) => {
            push_bytes(b"contents", out)?;
            push_id(design, id, out)
        }
        Object::Notes => push_bytes(b"notes", out),
    }
}
