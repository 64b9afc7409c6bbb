//! Parts of the generated design.
ghost use Rattle.std.specs.Prelude.{◌≡◌, ◌<◌, [], ◌∷◌, IfOk, true};
ghost use Rattle.flat_spec.specs.ExampleParts.{id_of, named, scalar, inst, net};
ghost use Rattle.gen_spec.specs.Generated.{cell, numbered, ports};
ghost use Rattle.netlist_schema.specs.Ident.{IsIdentifier, is_identifier_byte};
ghost use Rattle.design_gen.specs.Letters.{are_letters};

use itoa::Buffer;
use netlist_schema::{
    CellBody, CellId, CellKind, Contents, Direction, End, Ident, Inst, LibId, Name, Net, NoMemory,
    Port, Row, Shared, SharedRow,
};
use std::alloc::Global;

/// The letter and the number in decimal digits.
pub(crate) fn numbered(alloc: Global, letter: u8, number: u32) -> Result<Ident, NoMemory>
    requires { is_identifier_byte letter ≡ true }
    ensures { IfOk result (λ id. id ≡ numbered letter number) }
{
    let mut buffer = Buffer::new();
    let mut bytes = Vec::new(alloc);
    bytes.push(letter)?;
    bytes.extend_from_slice(buffer.format(number).as_bytes())?;
    word(alloc, bytes.as_slice())
}

/// The identifier of these bytes.
fn word(alloc: Global, bytes: &[u8]) -> Result<Ident, NoMemory>
    requires { IsIdentifier bytes.now }
    ensures { IfOk result (λ id. id ≡ bytes.now) }
{
    match Ident::of(alloc, bytes)? {
        Some(id) => Ok(id),
        None => unreachable!(),
    }
}

/// The identifier of some letters.
pub(crate) fn letters(alloc: Global, bytes: &[u8]) -> Result<Ident, NoMemory>
    requires { are_letters bytes.now ≡ true }
    ensures { IfOk result (λ id. id ≡ bytes.now) }
{
    word(alloc, bytes)
}

/// A name of some letters.
pub(crate) fn name(alloc: Global, bytes: &[u8]) -> Result<Name, NoMemory>
    requires { are_letters bytes.now ≡ true }
    ensures { IfOk result (λ name. name ≡ named bytes.now) }
{
    let id = letters(alloc, bytes)?;
    Ok(Name { id, shown: None })
}

/// A port of one bit.
fn port(alloc: Global, bytes: &[u8], direction: Direction) -> Result<Port, NoMemory>
    requires { are_letters bytes.now ≡ true }
    ensures { IfOk result (λ port. port ≡ scalar bytes.now direction) }
{
    let name = name(alloc, bytes)?;
    Ok(Port {
        name,
        array: None,
        direction: Some(direction),
        designator: None,
        properties: Row::of(Vec::new(alloc)),
    })
}

/// The ports of each cell.
fn ports(alloc: Global) -> Result<Row<Port>, NoMemory>
    ensures { IfOk result (λ made. made ≡ ports) }
{
    let input = port(alloc, b"A", Direction::Input)?;
    let output = port(alloc, b"Y", Direction::Output)?;
    let mut made = Vec::new(alloc);
    made.push(input)?;
    made.push(output)?;
    Ok(Row::of(made))
}

/// A cell.
pub(crate) fn cell(
    alloc: Global,
    bytes: &[u8],
    contents: Option<Contents>,
) -> Result<CellBody, NoMemory>
    requires { are_letters bytes.now ≡ true }
    ensures { IfOk result (λ body. body ≡ cell bytes.now contents) }
{
    let name = name(alloc, bytes)?;
    let view = self::name(alloc, b"netlist")?;
    let ports = ports(alloc)?;
    Ok(CellBody {
        name,
        kind: CellKind::Generic,
        properties: Row::of(Vec::new(alloc)),
        view,
        view_properties: Row::of(Vec::new(alloc)),
        interface_properties: Row::of(Vec::new(alloc)),
        ports,
        contents: Shared::of_some(alloc, contents)?,
    })
}

/// An instance of the cell at slot 0 of a library.
pub(crate) fn inst(alloc: Global, id: Ident, lib: u32) -> Inst
    ensures { result ≡ inst id (id_of lib 0) [] }
{
    Inst {
        name: Name { id, shown: None },
        of: CellId {
            lib: LibId(lib),
            slot: 0,
        },
        designator: None,
        properties: Row::of(Vec::new(alloc)),
    }
}

/// A net with two ends.
pub(crate) fn net(alloc: Global, id: Ident, left: End, right: End) -> Result<Net, NoMemory>
    ensures { IfOk result (λ made. made ≡ net id (left ∷ right ∷ [])) }
{
    let mut ends = Vec::new(alloc);
    ends.push(left)?;
    ends.push(right)?;
    Ok(Net {
        name: Name { id, shown: None },
        ends: Row::of(ends),
        properties: SharedRow::empty(),
    })
}
