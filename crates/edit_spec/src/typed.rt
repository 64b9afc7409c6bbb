//! What holds of an operation by the types of its fields, told without memory.
ghost use Rattle.std.specs.Prelude.{All, IfSome};
ghost use Rattle.netlist_schema.specs.Ident.{IsIdentifier};
ghost use Rattle.netlist_schema.specs.Typed.{IsBytes, IsTypedName, IsTypedNum, IsTypedProperty, IsTypedValue};
ghost use Rattle.edit_spec.specs.Typed.{IsTypedOp, IsTypedPortDecl};

use crate::ops::{Op, PortDecl};
use netlist_schema::{Ident, Name, Num, Property, Row, Text, Value};

fn text_is_typed(text: &Text)
    ensures { IsBytes text.now }
{
    let _bytes = text.as_slice();
}

fn shown_is_typed(shown: &Option<Text>)
    ensures { IfSome shown.now IsBytes }
{
    if let Some(text) = shown {
        text_is_typed(text);
    }
}

fn ident_is_typed(name: &Ident)
    ensures { IsIdentifier name.now }
{
    let _bytes = name.as_slice();
}

fn name_is_typed(name: &Name)
    ensures { IsTypedName name.now }
{
    ident_is_typed(&name.id);
    shown_is_typed(&name.shown);
}

fn num_is_typed(num: &Num)
    ensures { IsTypedNum num.now }
{
    match *num {
        Num::Int(_n) => {}
        Num::Scaled {
            mantissa: _mantissa,
            exponent: _exponent,
        } => {}
    }
}

fn value_is_typed(value: &Value)
    ensures { IsTypedValue value.now }
{
    match value {
        Value::Boolean(_) => {}
        Value::Integer(n) => {
            let _n = *n;
        }
        Value::Number(num) => num_is_typed(num),
        Value::Text(text) => text_is_typed(text),
    }
}

fn property_is_typed(property: &Property)
    ensures { IsTypedProperty property.now }
{
    name_is_typed(&property.key);
    value_is_typed(&property.value);
    shown_is_typed(&property.owner);
}

fn port_is_typed(port: &PortDecl)
    ensures { IsTypedPortDecl port.now }
{
    ident_is_typed(&port.name);
    if let Some(width) = &port.array {
        let _bits = width.get();
    }
}

fn ports_are_typed(ports: &Row<PortDecl>)
    ensures { All IsTypedPortDecl ports.now }
{
    for port in ports.as_slice() {
        port_is_typed(port);
    }
}

fn path_is_typed(path: &Row<Ident>)
    ensures { All IsIdentifier path.now }
{
    for step in path.as_slice() {
        ident_is_typed(step);
    }
}

/// Tells what holds of an operation by the types of its fields: names are identifiers, widths are widths, numbers and bytes are
/// in their ranges. Takes no memory, and does nothing.
pub fn op_is_typed(op: &Op)
    ensures { IsTypedOp op.now }
{
    match op {
        Op::AddCell { cell, ports, .. } => {
            ident_is_typed(&cell.cell);
            ports_are_typed(ports);
        }
        Op::AddNet { net, .. } => ident_is_typed(net),
        Op::AddInst { inst, .. } => ident_is_typed(inst),
        Op::SetProp { property, .. } => property_is_typed(property),
        Op::SetNote { path, property } => {
            path_is_typed(path);
            property_is_typed(property);
        }
        _ => {}
    }
}
