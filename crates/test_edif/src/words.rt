//! Names, strings, integers and properties as they are spelled, names in their scopes, and the bits of ports.
use crate::checks::same;
use bus_members::{bit_count, width};
use edif_names::{Defined, Meant, Scope, property_text, write_ident, write_integer, write_string};
use netlist_schema::{
    CellBody, CellKind, Direction, Ident, Name, NoMemory, Num, Port, Property, Row, Text, Value,
    Width,
};
use std::alloc::{AllocError, Global};
use std::process::Abort;
use std::test::Fail;

fn ident(alloc: Global, name: &str) -> Result<Ident, Fail> {
    Ok(Ident::of(alloc, name.as_bytes())?.ok_or("no identifier")?)
}

fn name(alloc: Global, id: &str) -> Result<Name, Fail> {
    Ok(Name {
        id: ident(alloc, id)?,
        shown: None,
    })
}

fn text(alloc: Global, bytes: &[u8]) -> Result<Text, AllocError> {
    Ok(Text::of(bytes.to_vec(alloc)?))
}

fn spell_ident(alloc: Global, id: &str, out: &mut Vec<u8>) -> Result<(), Fail> {
    let name = ident(alloc, id)?;
    Ok(write_ident(alloc, &name, out)?)
}

fn spell_string(alloc: Global, bytes: &[u8], out: &mut Vec<u8>) -> Result<(), NoMemory> {
    let text = text(alloc, bytes)?;
    write_string(alloc, &text, out)
}

/// Writes a property with this value.
fn write_property(alloc: Global, value: Value, out: &mut Vec<u8>) -> Result<(), Fail> {
    let property = Property {
        key: name(alloc, "1k")?,
        value,
        owner: None,
    };
    Ok(property_text(alloc, &property, out)?)
}

/// The same, with a blank behind it.
fn spell_property(alloc: Global, value: Value, out: &mut Vec<u8>) -> Result<(), Fail> {
    write_property(alloc, value, out)?;
    Ok(out.push(b' ')?)
}

static IDENTS: [&str; 3] = ["a1", "1", "_x"];

static STRINGS: [&[u8]; 3] = [b"\"%", b"d[3:0]", b"a\n\x00b\xff"];

static INTEGERS: [i64; 3] = [0, -7, i64::MIN];

/// Writes names, strings and integers, with a blank behind each.
fn spell(alloc: Global, out: &mut Vec<u8>) -> Result<(), Fail> {
    for id in &IDENTS {
        spell_ident(alloc, id, out)?;
        out.push(b' ')?;
    }
    for bytes in &STRINGS {
        spell_string(alloc, bytes, out)?;
        out.push(b' ')?;
    }
    for value in &INTEGERS {
        write_integer(alloc, *value, out)?;
        out.push(b' ')?;
    }
    Ok(())
}

/// Writes a property of each type of value, with a blank behind each.
fn spell_properties(alloc: Global, out: &mut Vec<u8>) -> Result<(), Fail> {
    let scaled = Num::Scaled {
        mantissa: 12,
        exponent: -1,
    };
    spell_property(alloc, Value::Boolean(true), out)?;
    spell_property(alloc, Value::Integer(-3), out)?;
    spell_property(alloc, Value::Number(Num::Int(5)), out)?;
    spell_property(alloc, Value::Number(scaled), out)?;
    spell_property(alloc, Value::Text(text(alloc, b"x%")?), out)
}

const SPELLED: &[u8] =
    b"a1 &1 &_x \"%34 37%\" \"d[3:0]\" \"a%10 0%b%255%\" 0 -7 -9223372036854775808 ";

const PROPERTIES: &[u8] = b"1k=true 1k=-3 1k=n5 1k=n12e-1 1k=\"x%37%\" ";

#[test]
fn parts_are_spelled(rt: HostRuntime) -> Result<(), Fail> {
    let mut out = Vec::new(rt.alloc());
    spell(rt.alloc(), &mut out)?;
    same(
        &rt,
        &out.as_slice(),
        &SPELLED,
        "names, strings and integers",
    );
    Ok(())
}

#[test]
fn properties_are_spelled(rt: HostRuntime) -> Result<(), Fail> {
    let mut out = Vec::new(rt.alloc());
    spell_properties(rt.alloc(), &mut out)?;
    same(&rt, &out.as_slice(), &PROPERTIES, "properties");
    Ok(())
}

/// A name that is defined, its number, its place, and what that gives.
type Definition<'a> = (&'a str, u32, u64, Defined);

/// A reference, and what it means.
type Reference<'a> = (&'a str, Meant);

fn define(
    alloc: Global,
    scope: &mut Scope,
    name: &str,
    id: u32,
    place: u64,
) -> Result<Defined, Fail> {
    let name = ident(alloc, name)?;
    Ok(scope.define(&name, id, place)?)
}

fn meaning(alloc: Global, scope: &Scope, reference: &str) -> Result<Meant, Fail> {
    let name = ident(alloc, reference)?;
    Ok(scope.meant(&name))
}

/// Defines names in a scope, and asks what references mean then.
fn ask(
    rt: &impl Abort,
    alloc: Global,
    scope: &mut Scope,
    definitions: &[Definition],
    references: &[Reference],
) -> Result<(), Fail> {
    for (name, id, place, want) in definitions {
        let defined = define(alloc, scope, name, *id, *place)?;
        same(rt, &defined, want, name);
    }
    for (reference, want) in references {
        let meant = meaning(alloc, scope, reference)?;
        same(rt, &meant, want, reference);
    }
    Ok(())
}

/// The same in a scope without names.
fn ask_new(
    rt: &impl Abort,
    alloc: Global,
    definitions: &[Definition],
    references: &[Reference],
) -> Result<(), Fail> {
    let mut scope = Scope::new(alloc);
    ask(rt, alloc, &mut scope, definitions, references)
}

static CELLS: [Definition; 3] = [
    ("a", 0, 10, Defined::Added),
    ("A", 1, 10, Defined::Added),
    ("b", 2, 10, Defined::Added),
];

static OF_CELLS: [Reference; 4] = [
    ("a", Meant::Found(0)),
    ("A", Meant::Found(1)),
    ("B", Meant::Found(2)),
    ("V", Meant::Absent),
];

static OTHERS: [Definition; 3] = [
    ("ab", 0, 10, Defined::Added),
    ("aB", 1, 10, Defined::Added),
    ("c", 2, 10, Defined::Added),
];

static TWICE: [Definition; 2] = [
    ("ab", 3, 40, Defined::Added),
    ("ab", 4, 50, Defined::Earlier(40)),
];

#[test]
fn names_have_their_meanings(rt: HostRuntime) -> Result<(), Fail> {
    ask_new(&rt, rt.alloc(), &CELLS, &OF_CELLS)?;
    ask_new(&rt, rt.alloc(), &OTHERS, &[("AB", Meant::Several)])?;
    ask_new(&rt, rt.alloc(), &TWICE, &[])
}

fn port(alloc: Global, array: Option<Width>) -> Result<Port, Fail> {
    Ok(Port {
        name: name(alloc, "p")?,
        array,
        direction: Some(Direction::Input),
        designator: None,
        properties: Row::of(Vec::new(alloc)),
    })
}

fn add_port(alloc: Global, bits: u32, ports: &mut Vec<Port>) -> Result<(), Fail> {
    let port = port(alloc, Width::of(bits))?;
    Ok(ports.push(port)?)
}

/// A port of one bit, one of 4 and one of 65,536.
fn ports(alloc: Global) -> Result<Vec<Port>, Fail> {
    let mut ports = vec![in alloc; port(alloc, None)?]?;
    for bits in &[4, 65_536] {
        add_port(alloc, *bits, &mut ports)?;
    }
    Ok(ports)
}

/// A leaf with these ports.
fn leaf(alloc: Global, ports: Vec<Port>) -> Result<CellBody, Fail> {
    Ok(CellBody {
        name: name(alloc, "c")?,
        kind: CellKind::Generic,
        properties: Row::of(Vec::new(alloc)),
        view: name(alloc, "v")?,
        view_properties: Row::of(Vec::new(alloc)),
        interface_properties: Row::of(Vec::new(alloc)),
        ports: Row::of(ports),
        contents: None,
    })
}

/// Checks the widths of the ports of a leaf, and the number of its bits.
fn has_bits(rt: &impl Abort, body: &CellBody) {
    let ports = body.ports.as_slice();
    assert!(rt; ports.len() == 3);
    let widths = (width(&ports[0]), width(&ports[1]));
    same(rt, &widths, &(1, 4), "widths");
    same(rt, &bit_count(body), &65_541, "bits");
}

#[test]
fn bits_are_counted(rt: HostRuntime) -> Result<(), Fail> {
    let ports = ports(rt.alloc())?;
    let body = leaf(rt.alloc(), ports)?;
    has_bits(&rt, &body);
    Ok(())
}
