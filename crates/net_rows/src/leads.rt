//! Which joints lead to a pin.
ghost use Rattle.std.specs.Prelude.{◌≡◌, false, if◌then◌else◌, option_and_then, slice_get};
ghost use Rattle.erc_spec.specs.Drives.{is_either, is_input, is_output};
ghost use Rattle.std.specs.Option.{option_map_or};
ghost use Rattle.net_classes.specs.Facts.{first_at};
ghost use Rattle.net_rows.specs.Rows.{bit_leads, has_joints, joints_of, leads, port_stands};

use crate::rows::Rows;
use ask_spec::Role;
use flat_lookup::inst_at;
use net_classes::{Classes, Joint};
use netlist_schema::{CellBody, CellId, Direction, Port, Shown};

/// Whether it is an input.
fn is_input(direction: Option<Direction>) -> bool
    ensures { result ≡ is_input direction }
{
    match direction {
        Some(Direction::Input) => true,
        Some(Direction::Output) => false,
        Some(Direction::Inout) => false,
        None => false,
    }
}

/// Whether it is an output.
fn is_output(direction: Option<Direction>) -> bool
    ensures { result ≡ is_output direction }
{
    match direction {
        Some(Direction::Input) => false,
        Some(Direction::Output) => true,
        Some(Direction::Inout) => false,
        None => false,
    }
}

/// Whether a pin of a port with this direction drives its net strongly, at the top or at a leaf below it.
fn is_strong(at_top: bool, direction: Option<Direction>) -> bool
    ensures { result ≡ (if at_top then is_input direction else is_output direction) }
{
    if at_top {
        is_input(direction)
    } else {
        is_output(direction)
    }
}

/// Whether a port with this direction leads both ways, or is not told which way it leads.
fn is_either(direction: Option<Direction>) -> bool
    ensures { result ≡ is_either direction }
{
    match direction {
        Some(Direction::Input) => false,
        Some(Direction::Output) => false,
        Some(Direction::Inout) => true,
        None => true,
    }
}

/// Whether a pin of a port with this direction stands as that at its net, at the top or at a leaf below it.
pub(crate) fn stands_as(role: Role, at_top: bool, direction: Option<Direction>) -> bool
    ensures { result ≡ port_stands role at_top direction }
{
    match role {
        Role::Any => true,
        Role::Driver => is_strong(at_top, direction) || is_either(direction),
        Role::Load => !is_strong(at_top, direction),
    }
}

/// The direction of a port.
pub(crate) fn direction_of(ports: &[Port], port: u32) -> Option<Direction>
    ensures { result ≡ option_and_then (λ p. p.direction) (slice_get ports.now port) }
{
    match ports.get(port as usize) {
        Some(found) => found.direction,
        None => None,
    }
}

/// Whether a net of a cell that joins its own bit inside has a joint that leads to a pin.
fn leads_inside(classes: &Classes, rows: &Rows, of: CellId, port: u32, bit: u32) -> bool
    ensures { result ≡ option_map_or (λ first. has_joints (joints_of rows.now of first)) (first_at classes.now of (record { port = port; bit = bit })) false }
{
    match classes.first_at(of, port, bit) {
        Some(first) => !rows.joints(of, first).is_empty(),
        None => false,
    }
}

/// Whether an own bit of an instance's cell leads to a pin that stands as that: at a leaf the bit itself, else one below.
fn leads_in(
    classes: &Classes,
    rows: &Rows,
    role: Role,
    of: CellId,
    body: &CellBody,
    joint: &Joint,
) -> bool
    ensures { result ≡ bit_leads role classes.now rows.now of body.now (record { port = joint.now.port; bit = joint.now.bit }) }
{
    if body.contents.is_none() {
        return stands_as(role, false, direction_of(body.ports.as_slice(), joint.port));
    }
    leads_inside(classes, rows, of, joint.port, joint.bit)
}

/// Whether a joint of a cell leads to a pin that stands as that.
pub(crate) fn leads<S: Shown>(
    design: &S,
    classes: &Classes,
    rows: &Rows,
    role: Role,
    cell: CellId,
    joint: &Joint,
) -> bool
    ensures { result ≡ leads role (S.design design.now) classes.now rows.now cell joint.now }
{
    let Some(inst) = inst_at(design, cell, joint.inst) else {
        return false;
    };
    match design.cell(inst.of) {
        Some(body) => leads_in(classes, rows, role, inst.of, body, joint),
        None => false,
    }
}
