//! Bodies that differ in nothing but what is inside.
ghost use Rattle.std.specs.Prelude.{◌≡◌, IsTrue};
ghost use Rattle.db_work.specs.Becomes.{put_together};
ghost use Rattle.netlist_bus_spec.specs.Same.{same_property};

use netlist_schema::{CellBody, CellKind, Direction, Name, Port, Property, Row, Text, Width};

fn is_same_name(a: &Name, b: &Name) -> bool
    ensures { IsTrue result → a.now ≡ b.now }
{
    *a == *b
}

fn test_property(a: &Property, b: &Property) -> bool
    ensures { result ≡ same_property a.now b.now }
{
    *a == *b
}

fn is_same_property(a: &Property, b: &Property) -> bool
    ensures { IsTrue result → a.now ≡ b.now }
{
    test_property(a, b)
}

fn are_equal(a: &[Property], b: &[Property]) -> bool
    ensures { IsTrue result → a.now ≡ b.now }
{
    if a.len() != b.len() {
        return false;
    }
    for place in 0..a.len() {
        if !is_same_property(&a[place], &b[place]) {
            return false;
        }
    }
    true
}

fn are_same_properties(a: &Row<Property>, b: &Row<Property>) -> bool
    ensures { IsTrue result → a.now ≡ b.now }
{
    are_equal(a.as_slice(), b.as_slice())
}

fn is_same_text(a: &Option<Text>, b: &Option<Text>) -> bool
    ensures { IsTrue result → a.now ≡ b.now }
{
    *a == *b
}

fn is_same_width(a: &Option<Width>, b: &Option<Width>) -> bool
    ensures { IsTrue result → a.now ≡ b.now }
{
    match (a, b) {
        (None, None) => true,
        (Some(a), Some(b)) => a.get() == b.get(),
        _ => false,
    }
}

fn is_same_direction(a: Option<Direction>, b: Option<Direction>) -> bool
    ensures { IsTrue result → a ≡ b }
{
    match (a, b) {
        (None, None) => true,
        (Some(Direction::Input), Some(Direction::Input)) => true,
        (Some(Direction::Output), Some(Direction::Output)) => true,
        (Some(Direction::Inout), Some(Direction::Inout)) => true,
        _ => false,
    }
}

fn is_same_kind(a: CellKind, b: CellKind) -> bool
    ensures { IsTrue result → a ≡ b }
{
    match (a, b) {
        (CellKind::Generic, CellKind::Generic) => true,
        (CellKind::Tie, CellKind::Tie) => true,
        (CellKind::Ripper, CellKind::Ripper) => true,
        _ => false,
    }
}

fn is_same_port(a: &Port, b: &Port) -> bool
    ensures { IsTrue result → a.now ≡ b.now }
{
    if !is_same_name(&a.name, &b.name) {
        return false;
    }
    if !is_same_width(&a.array, &b.array) {
        return false;
    }
    if !is_same_direction(a.direction, b.direction) {
        return false;
    }
    if !is_same_text(&a.designator, &b.designator) {
        return false;
    }
    are_same_properties(&a.properties, &b.properties)
}

fn are_same_ports(a: &[Port], b: &[Port]) -> bool
    ensures { IsTrue result → a.now ≡ b.now }
{
    if a.len() != b.len() {
        return false;
    }
    for place in 0..a.len() {
        if !is_same_port(&a[place], &b[place]) {
            return false;
        }
    }
    true
}

fn has_same_head(a: &CellBody, b: &CellBody) -> bool
    ensures { IsTrue result → (a.now.name ≡ b.now.name) × (a.now.kind ≡ b.now.kind) × (a.now.view ≡ b.now.view) }
{
    if !is_same_name(&a.name, &b.name) {
        return false;
    }
    if !is_same_kind(a.kind, b.kind) {
        return false;
    }
    is_same_name(&a.view, &b.view)
}

fn has_same_properties(a: &CellBody, b: &CellBody) -> bool
    ensures { IsTrue result → (a.now.properties ≡ b.now.properties) × (a.now.view_properties ≡ b.now.view_properties) × (a.now.interface_properties ≡ b.now.interface_properties) }
{
    if !are_same_properties(&a.properties, &b.properties) {
        return false;
    }
    if !are_same_properties(&a.view_properties, &b.view_properties) {
        return false;
    }
    are_same_properties(&a.interface_properties, &b.interface_properties)
}

/// Whether two bodies differ in nothing but what is inside: then the second one is what the outside of the first and the inside of
/// the second come to. Takes no memory.
pub(crate) fn has_same_outside(a: &CellBody, b: &CellBody) -> bool
    ensures { IsTrue result → put_together a.now b.now ≡ b.now }
{
    if !has_same_head(a, b) {
        return false;
    }
    if !has_same_properties(a, b) {
        return false;
    }
    are_same_ports(a.ports.as_slice(), b.ports.as_slice())
}
