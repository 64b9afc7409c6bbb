//! The parts of designs, each with what is planned and nothing else.
ghost use Rattle.std.specs.Prelude.{◌≡◌, ◌∷◌, [], map, IfOk};
ghost use Rattle.std.specs.Option.{option_map};
ghost use Rattle.test_hand_designs.specs.Planned.{id_at, lent, plain, planned_cell, planned_end, planned_inside, planned_inst, planned_lib, planned_net, planned_note, planned_port, planned_property, planned_top};

use crate::plans::{
    CellPlan, EndPlan, Inside, InstPlan, NetPlan, NotePlan, PortPlan, PropertyPlan, TopPlan,
};
use netlist_schema::{
    CellBody, CellId, CellKind, Contents, End, Ident, Inst, Lib, LibHead, LibId, Listed, Name, Net,
    Note, Parts, Port, Property, Row, Shared, SharedRow, Text, TopHead, Value,
};
use std::alloc::Global;
use std::test::Fail;

fn ident(alloc: Global, id: &[u8]) -> Result<Ident, Fail>
    ensures { IfOk result (λ made. made ≡ id.now) }
{
    let id = Ident::of(alloc, id)?.ok_or("no identifier")?;
    Ok(id)
}

/// A name with no shown text.
pub fn name(alloc: Global, id: &[u8]) -> Result<Name, Fail>
    ensures { IfOk result (λ name. name ≡ plain id.now) }
{
    let id = ident(alloc, id)?;
    Ok(Name { id, shown: None })
}

fn property(alloc: Global, plan: &PropertyPlan) -> Result<Property, Fail>
    ensures { IfOk result (λ property. property ≡ planned_property plan.now) }
{
    let (key, text) = *plan;
    let text = Text::of(text.to_vec(alloc)?);
    Ok(Property {
        key: name(alloc, key)?,
        value: Value::Text(text),
        owner: None,
    })
}

fn properties(alloc: Global, plans: &[PropertyPlan]) -> Result<Row<Property>, Fail>
    ensures { IfOk result (λ properties. properties ≡ map planned_property plans.now) }
{
    let mut properties = Vec::new(alloc);
    for plan in plans {
        properties.push(property(alloc, plan)?)?;
    }
    Ok(Row::of(properties))
}

fn port(alloc: Global, plan: &PortPlan) -> Result<Port, Fail>
    ensures { IfOk result (λ port. port ≡ planned_port plan.now) }
{
    let (id, direction) = *plan;
    Ok(Port {
        name: name(alloc, id)?,
        array: None,
        direction,
        designator: None,
        properties: Row::of(Vec::new(alloc)),
    })
}

fn ports(alloc: Global, plans: &[PortPlan]) -> Result<Row<Port>, Fail>
    ensures { IfOk result (λ ports. ports ≡ map planned_port plans.now) }
{
    let mut ports = Vec::new(alloc);
    for plan in plans {
        ports.push(port(alloc, plan)?)?;
    }
    Ok(Row::of(ports))
}

/// The cell at a place of the library.
fn id_at(slot: u32) -> CellId
    ensures { result ≡ id_at slot }
{
    CellId {
        lib: LibId(0),
        slot,
    }
}

fn inst(alloc: Global, plan: &InstPlan) -> Result<Inst, Fail>
    ensures { IfOk result (λ inst. inst ≡ planned_inst plan.now) }
{
    let (id, slot, properties) = *plan;
    let properties = self::properties(alloc, properties)?;
    Ok(Inst {
        name: name(alloc, id)?,
        of: id_at(slot),
        designator: None,
        properties,
    })
}

fn insts(alloc: Global, plans: &[InstPlan]) -> Result<Parts<Listed<Inst>>, Fail>
    ensures { IfOk result (λ insts. insts ≡ map planned_inst plans.now) }
{
    let mut insts = Vec::new(alloc);
    for plan in plans {
        insts.push(Listed::of(alloc, inst(alloc, plan)?)?)?;
    }
    Ok(Parts::of(alloc, insts)?)
}

fn end(plan: &EndPlan) -> End
    ensures { result ≡ planned_end plan.now }
{
    let (inst, port) = *plan;
    End { inst, port, bit: 0 }
}

fn ends(alloc: Global, plans: &[EndPlan]) -> Result<Row<End>, Fail>
    ensures { IfOk result (λ ends. ends ≡ map planned_end plans.now) }
{
    let mut ends = Vec::new(alloc);
    for plan in plans {
        ends.push(end(plan))?;
    }
    Ok(Row::of(ends))
}

fn net(alloc: Global, plan: &NetPlan) -> Result<Net, Fail>
    ensures { IfOk result (λ net. net ≡ planned_net plan.now) }
{
    let (id, plans) = *plan;
    let ends = ends(alloc, plans)?;
    Ok(Net {
        name: name(alloc, id)?,
        ends,
        properties: SharedRow::empty(),
    })
}

fn nets(alloc: Global, plans: &[NetPlan]) -> Result<Parts<Listed<Net>>, Fail>
    ensures { IfOk result (λ nets. nets ≡ map planned_net plans.now) }
{
    let mut nets = Vec::new(alloc);
    for plan in plans {
        nets.push(Listed::of(alloc, net(alloc, plan)?)?)?;
    }
    Ok(Parts::of(alloc, nets)?)
}

fn contents(alloc: Global, plan: Option<Inside>) -> Result<Option<Contents>, Fail>
    ensures { IfOk result (λ contents. contents ≡ option_map planned_inside plan.entry) }
{
    let Some(plan) = plan else {
        return Ok(None);
    };
    let insts = insts(alloc, plan.insts)?;
    let nets = nets(alloc, plan.nets)?;
    Ok(Some(Contents { insts, nets }))
}

fn cell(alloc: Global, plan: &CellPlan) -> Result<CellBody, Fail>
    ensures { IfOk result (λ cell. cell ≡ planned_cell plan.now) }
{
    let id = name(alloc, plan.id)?;
    let view = name(alloc, b"v")?;
    let ports = ports(alloc, plan.ports)?;
    let contents = contents(alloc, plan.inside)?;
    Ok(CellBody {
        name: id,
        kind: CellKind::Generic,
        properties: Row::of(Vec::new(alloc)),
        view,
        view_properties: Row::of(Vec::new(alloc)),
        interface_properties: Row::of(Vec::new(alloc)),
        ports,
        contents: Shared::of_some(alloc, contents)?,
    })
}

fn cells(alloc: Global, plans: &[CellPlan]) -> Result<Row<CellBody>, Fail>
    ensures { IfOk result (λ cells. cells ≡ map planned_cell plans.now) }
{
    let mut cells = Vec::new(alloc);
    for plan in plans {
        cells.push(cell(alloc, plan)?)?;
    }
    Ok(Row::of(cells))
}

/// The library of a design, with these cells.
pub fn library(alloc: Global, plans: &[CellPlan]) -> Result<Row<Lib>, Fail>
    ensures { IfOk result (λ libs. libs ≡ planned_lib plans.now ∷ []) }
{
    let cells = cells(alloc, plans)?;
    let head = LibHead {
        name: name(alloc, b"w")?,
        external: false,
    };
    Ok(Row::of(vec![in alloc; Lib { head, cells }]?))
}

/// The top of a design, where it has one.
pub fn top(alloc: Global, plan: Option<TopPlan>) -> Result<Option<TopHead>, Fail>
    ensures { IfOk result (λ top. top ≡ option_map planned_top plan.entry) }
{
    let Some((id, slot)) = plan else {
        return Ok(None);
    };
    Ok(Some(TopHead {
        name: name(alloc, id)?,
        cell: id_at(slot),
        properties: Row::of(Vec::new(alloc)),
    }))
}

fn path(alloc: Global, ids: &[&[u8]]) -> Result<Row<Ident>, Fail>
    ensures { IfOk result (λ path. path ≡ map lent ids.now) }
{
    let mut path = Vec::new(alloc);
    for id in ids {
        path.push(ident(alloc, id)?)?;
    }
    Ok(Row::of(path))
}

fn note(alloc: Global, plan: &NotePlan) -> Result<Note, Fail>
    ensures { IfOk result (λ note. note ≡ planned_note plan.now) }
{
    let path = path(alloc, plan.0)?;
    let property = property(alloc, &plan.1)?;
    Ok(Note { path, property })
}

/// The notes of a design.
pub fn notes(alloc: Global, plans: &[NotePlan]) -> Result<Row<Note>, Fail>
    ensures { IfOk result (λ notes. notes ≡ map planned_note plans.now) }
{
    let mut notes = Vec::new(alloc);
    for plan in plans {
        notes.push(note(alloc, plan)?)?;
    }
    Ok(Row::of(notes))
}
