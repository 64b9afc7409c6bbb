//! The canonical line of an operation.
ghost use Rattle.std.specs.Prelude.{◌≡◌, ◌∷◌, [], ◌++◌, codes, map, OnOk};
ghost use Rattle.std.specs.Fmt.{signed_decimal};
ghost use Rattle.edif_names.specs.Parts.{Grows};
ghost use Rattle.script_spec.specs.Lines.{direction_word, end_pieces, inst_piece, leaf_word, path_piece, port_piece, property_pieces, target_pieces, value_pieces};
ghost use Rattle.script_spec.specs.Pieces.{piece_text};
ghost use Rattle.script_texts.specs.Parts.{behind_blanks, behind_pieces, op_words};

use crate::words::{push_cell, push_digits, push_integer, push_marked, push_number, push_word};
use edif_names::write_string;
use edit_spec::{CellName, EndName, Op, PortDecl, Target};
use netlist_schema::{Direction, Ident, NoMemory, Num, Property, Row, Value};
use std::alloc::Global;

/// Appends a word of the language and a cell's names, each behind a blank. After `NoMemory` some bytes may stand behind those
/// before.
fn push_of_cell(word: &[u8], cell: &CellName, out: &mut Vec<u8>) -> Result<(), NoMemory>
    ensures ok { OnOk result (out.new.items ≡ out.old.items ++ behind_blanks (word.now ∷ cell.now.lib ∷ cell.now.cell ∷ [])) }
    ensures grows { Grows out.old.items out.new.items }
{
    push_word(word, out)?;
    push_cell(cell, out)
}

/// The same with one more name.
fn push_in_cell(
    word: &[u8],
    cell: &CellName,
    name: &Ident,
    out: &mut Vec<u8>,
) -> Result<(), NoMemory>
    ensures ok { OnOk result (out.new.items ≡ out.old.items ++ behind_blanks (word.now ∷ cell.now.lib ∷ cell.now.cell ∷ name.now ∷ [])) }
    ensures grows { Grows out.old.items out.new.items }
{
    push_of_cell(word, cell, out)?;
    push_word(name.as_slice(), out)
}

/// The name of an end's instance, `-` where it has none.
fn inst_name(inst: &Option<Ident>) -> &[u8]
    ensures { result.now ≡ piece_text (inst_piece inst.now) }
{
    match inst {
        Some(name) => name.as_slice(),
        None => b"-",
    }
}

/// Appends an end: instance, port and bit, each behind a blank. After `NoMemory` some bytes may stand behind those before.
fn push_end(end: &EndName, out: &mut Vec<u8>) -> Result<(), NoMemory>
    ensures ok { OnOk result (out.new.items ≡ out.old.items ++ behind_pieces (end_pieces end.now)) }
    ensures grows { Grows out.old.items out.new.items }
{
    push_word(inst_name(&end.inst), out)?;
    push_word(end.port.as_slice(), out)?;
    push_number(u64::from(end.bit), out)
}

/// The word of a direction.
fn direction_word(direction: &Option<Direction>) -> &[u8]
    ensures { result.now ≡ direction_word direction.now }
{
    match direction {
        None => b"none",
        Some(Direction::Input) => b"in",
        Some(Direction::Output) => b"out",
        Some(Direction::Inout) => b"inout",
    }
}

/// Appends a port's name and direction behind a blank and with `:` between them. After `NoMemory` some bytes may stand behind
/// those before.
fn push_scalar(port: &PortDecl, out: &mut Vec<u8>) -> Result<(), NoMemory>
    ensures ok { OnOk result (out.new.items ≡ out.old.items ++ behind_blanks ((port.now.name ++ 58 ∷ direction_word port.now.direction) ∷ [])) }
    ensures grows { Grows out.old.items out.new.items }
{
    push_word(port.name.as_slice(), out)?;
    out.push(b':')?;
    out.extend_from_slice(direction_word(&port.direction))?;
    Ok(())
}

/// Appends a port behind a blank, and its width where it is an array. After `NoMemory` some bytes may stand behind those before.
fn push_port(port: &PortDecl, out: &mut Vec<u8>) -> Result<(), NoMemory>
    ensures ok { OnOk result (out.new.items ≡ out.old.items ++ behind_pieces (port_piece port.now ∷ [])) }
    ensures grows { Grows out.old.items out.new.items }
{
    push_scalar(port, out)?;
    match &port.array {
        None => Ok(()),
        Some(width) => {
            out.push(b':')?;
            push_digits(u64::from(width.get()), out)
        }
    }
}

/// Appends ports, each behind a blank. After `NoMemory` some bytes may stand behind those before.
fn push_ports(ports: &[PortDecl], out: &mut Vec<u8>) -> Result<(), NoMemory>
    ensures ok { OnOk result (out.new.items ≡ out.old.items ++ behind_pieces (map port_piece ports.now)) }
    ensures grows { Grows out.old.items out.new.items }
{
    for port in ports {
        push_port(port, out)?;
    }
    Ok(())
}

/// Appends what a property is set of, each word behind a blank. After `NoMemory` some bytes may stand behind those before.
fn push_target(target: &Target, out: &mut Vec<u8>) -> Result<(), NoMemory>
    ensures ok { OnOk result (out.new.items ≡ out.old.items ++ behind_pieces (target_pieces target.now)) }
    ensures grows { Grows out.old.items out.new.items }
{
    match target {
        Target::Whole => push_word(b"cell", out),
        Target::Inst(inst) => {
            push_word(b"inst", out)?;
            push_word(inst.as_slice(), out)
        }
        Target::Net(net) => {
            push_word(b"net", out)?;
            push_word(net.as_slice(), out)
        }
    }
}

/// Appends a mantissa, `e` and an exponent, each behind a blank. After `NoMemory` some bytes may stand behind those before.
fn push_scaled(
    alloc: Global,
    mantissa: i64,
    exponent: i32,
    out: &mut Vec<u8>,
) -> Result<(), NoMemory>
    ensures ok { OnOk result (out.new.items ≡ out.old.items ++ behind_blanks (signed_decimal mantissa ∷ codes "e" ∷ signed_decimal exponent ∷ [])) }
    ensures grows { Grows out.old.items out.new.items }
{
    push_integer(alloc, mantissa, out)?;
    push_word(b"e", out)?;
    push_integer(alloc, i64::from(exponent), out)
}

/// Appends a number as a value, each word behind a blank. After `NoMemory` some bytes may stand behind those before.
fn push_num(alloc: Global, number: Num, out: &mut Vec<u8>) -> Result<(), NoMemory>
    ensures ok { OnOk result (out.new.items ≡ out.old.items ++ behind_pieces (value_pieces (Value.Number number))) }
    ensures grows { Grows out.old.items out.new.items }
{
    push_word(b"num", out)?;
    match number {
        Num::Int(integer) => push_integer(alloc, integer, out),
        Num::Scaled { mantissa, exponent } => push_scaled(alloc, mantissa, exponent, out),
    }
}

/// Appends a value, each word behind a blank. After `NoMemory` some bytes may stand behind those before.
fn push_value(alloc: Global, value: &Value, out: &mut Vec<u8>) -> Result<(), NoMemory>
    ensures ok { OnOk result (out.new.items ≡ out.old.items ++ behind_pieces (value_pieces value.now)) }
    ensures grows { Grows out.old.items out.new.items }
{
    match value {
        Value::Boolean(true) => push_word(b"true", out),
        Value::Boolean(false) => push_word(b"false", out),
        Value::Integer(integer) => {
            push_word(b"int", out)?;
            push_integer(alloc, *integer, out)
        }
        Value::Number(number) => push_num(alloc, *number, out),
        Value::Text(text) => {
            push_word(b"str", out)?;
            out.push(b' ')?;
            write_string(alloc, text, out)
        }
    }
}

/// Appends a property's key and value, each word behind a blank. After `NoMemory` some bytes may stand behind those before.
fn push_property(alloc: Global, property: &Property, out: &mut Vec<u8>) -> Result<(), NoMemory>
    ensures ok { OnOk result (out.new.items ≡ out.old.items ++ behind_pieces (property_pieces property.now)) }
    ensures grows { Grows out.old.items out.new.items }
{
    push_word(property.key.id.as_slice(), out)?;
    push_value(alloc, &property.value, out)
}

/// Appends a path behind a blank, with `/` between the names. After `NoMemory` some bytes may stand behind those before.
fn push_path(path: &[Ident], out: &mut Vec<u8>) -> Result<(), NoMemory>
    ensures ok { OnOk result (out.new.items ≡ out.old.items ++ behind_pieces (path_piece path.now ∷ [])) }
    ensures grows { Grows out.old.items out.new.items }
{
    match path.split_first() {
        None => {
            out.push(b' ')?;
            Ok(())
        }
        Some((first, rest)) => {
            push_word(first.as_slice(), out)?;
            push_marked(b'/', rest, out)
        }
    }
}

/// The word of a cell without contents, or with empty ones.
fn leaf_word(leaf: bool) -> &'static [u8]
    ensures { result.now ≡ leaf_word leaf }
{
    if leaf { b"leaf" } else { b"empty" }
}

/// Appends a new cell. After `NoMemory` some bytes may stand behind those before.
fn push_new_cell(
    cell: &CellName,
    leaf: bool,
    ports: &[PortDecl],
    out: &mut Vec<u8>,
) -> Result<(), NoMemory>
    ensures ok { OnOk result (out.new.items ≡ out.old.items ++ behind_blanks (codes "add-cell" ∷ cell.now.lib ∷ cell.now.cell ∷ leaf_word leaf ∷ map piece_text (map port_piece ports.now))) }
    ensures grows { Grows out.old.items out.new.items }
{
    push_of_cell(b"add-cell", cell, out)?;
    push_word(leaf_word(leaf), out)?;
    push_ports(ports, out)
}

/// Appends a new instance. After `NoMemory` some bytes may stand behind those before.
fn push_new_inst(
    cell: &CellName,
    inst: &Ident,
    of: &CellName,
    out: &mut Vec<u8>,
) -> Result<(), NoMemory>
    ensures ok { OnOk result (out.new.items ≡ out.old.items ++ behind_blanks (op_words (Op.AddInst cell.now inst.now of.now))) }
    ensures grows { Grows out.old.items out.new.items }
{
    push_in_cell(b"add-inst", cell, inst, out)?;
    push_cell(of, out)
}

/// Appends an end that is joined. After `NoMemory` some bytes may stand behind those before.
fn push_join(cell: &CellName, net: &Ident, end: &EndName, out: &mut Vec<u8>) -> Result<(), NoMemory>
    ensures ok { OnOk result (out.new.items ≡ out.old.items ++ behind_blanks (op_words (Op.Join cell.now net.now end.now))) }
    ensures grows { Grows out.old.items out.new.items }
{
    push_in_cell(b"join", cell, net, out)?;
    push_end(end, out)
}

/// Appends an end that is cut. After `NoMemory` some bytes may stand behind those before.
fn push_cut(cell: &CellName, end: &EndName, out: &mut Vec<u8>) -> Result<(), NoMemory>
    ensures ok { OnOk result (out.new.items ≡ out.old.items ++ behind_blanks (op_words (Op.Cut cell.now end.now))) }
    ensures grows { Grows out.old.items out.new.items }
{
    push_of_cell(b"cut", cell, out)?;
    push_end(end, out)
}

/// Appends a property that is set. After `NoMemory` some bytes may stand behind those before.
fn push_set(
    alloc: Global,
    cell: &CellName,
    target: &Target,
    property: &Property,
    out: &mut Vec<u8>,
) -> Result<(), NoMemory>
    ensures ok { OnOk result (out.new.items ≡ out.old.items ++ behind_blanks (op_words (Op.SetProp cell.now target.now property.now))) }
    ensures grows { Grows out.old.items out.new.items }
{
    push_of_cell(b"set-prop", cell, out)?;
    push_target(target, out)?;
    push_property(alloc, property, out)
}

/// Appends a note that is set. After `NoMemory` some bytes may stand behind those before.
fn push_note(
    alloc: Global,
    path: &Row<Ident>,
    property: &Property,
    out: &mut Vec<u8>,
) -> Result<(), NoMemory>
    ensures ok { OnOk result (out.new.items ≡ out.old.items ++ behind_blanks (op_words (Op.SetNote path.now property.now))) }
    ensures grows { Grows out.old.items out.new.items }
{
    push_word(b"set-note", out)?;
    push_path(path.as_slice(), out)?;
    push_property(alloc, property, out)
}

/// Appends an operation on notes that removes one. After `NoMemory` some bytes may stand behind those before.
fn push_no_note(path: &Row<Ident>, key: &Ident, out: &mut Vec<u8>) -> Result<(), NoMemory>
    ensures ok { OnOk result (out.new.items ≡ out.old.items ++ behind_blanks (op_words (Op.DropNote path.now key.now))) }
    ensures grows { Grows out.old.items out.new.items }
{
    push_word(b"drop-note", out)?;
    push_path(path.as_slice(), out)?;
    push_word(key.as_slice(), out)
}

/// Appends a path whose blocks get copies. After `NoMemory` some bytes may stand behind those before.
fn push_unique(path: &Row<Ident>, out: &mut Vec<u8>) -> Result<(), NoMemory>
    ensures ok { OnOk result (out.new.items ≡ out.old.items ++ behind_blanks (op_words (Op.UniquePath path.now))) }
    ensures grows { Grows out.old.items out.new.items }
{
    push_word(b"unique-path", out)?;
    push_path(path.as_slice(), out)
}

/// Appends the words of an operation, each behind a blank. After `NoMemory` some bytes may stand behind those before.
pub fn push_op(alloc: Global, op: &Op, out: &mut Vec<u8>) -> Result<(), NoMemory>
    ensures ok { OnOk result (out.new.items ≡ out.old.items ++ behind_blanks (op_words op.now)) }
    ensures grows { Grows out.old.items out.new.items }
{
    match op {
        Op::ShowCell { cell } => push_of_cell(b"show-cell", cell, out),
        Op::ShowNet { cell, net } => push_in_cell(b"show-net", cell, net, out),
        Op::ShowInst { cell, inst } => push_in_cell(b"show-inst", cell, inst, out),
        Op::AddCell { cell, leaf, ports } => push_new_cell(cell, *leaf, ports.as_slice(), out),
        Op::AddNet { cell, net } => push_in_cell(b"add-net", cell, net, out),
        Op::DropNet { cell, net } => push_in_cell(b"drop-net", cell, net, out),
        Op::AddInst { cell, inst, of } => push_new_inst(cell, inst, of, out),
        Op::DropInst { cell, inst } => push_in_cell(b"drop-inst", cell, inst, out),
        Op::Join { cell, net, end } => push_join(cell, net, end, out),
        Op::Cut { cell, end } => push_cut(cell, end, out),
        Op::SetProp {
            cell,
            target,
            property,
        } => push_set(alloc, cell, target, property, out),
        Op::SetNote { path, property } => push_note(alloc, path, property, out),
        Op::DropNote { path, key } => push_no_note(path, key, out),
        Op::Uniquify => push_word(b"uniquify", out),
        Op::UniquePath { path } => push_unique(path, out),
        Op::Ungroup { cell, inst } => push_in_cell(b"ungroup", cell, inst, out),
    }
}
