//! The ports of pins.
ghost use Rattle.std.specs.Prelude.{◌≡◌};
ghost use Rattle.erc_check.specs.Front.{direction_in};
ghost use Rattle.erc_spec.specs.Drives.{is_either, is_input, is_open_port, is_output, is_strong_port};

use netlist_schema::{CellId, Direction, Shown};

/// The direction of a port of a cell: none where there is no such cell or port, or it has none. Takes no memory.
pub fn direction_in<S: Shown>(design: &S, cell: Option<CellId>, port: u32) -> Option<Direction>
    ensures { result ≡ direction_in (S.design design.now) cell port }
{
    let Some(cell) = cell else {
        return None;
    };
    let Some(body) = design.cell(cell) else {
        return None;
    };
    match body.ports.as_slice().get(port as usize) {
        Some(port) => port.direction,
        None => None,
    }
}

/// Whether it is an input.
fn is_input(direction: Option<Direction>) -> bool
    ensures { result ≡ is_input direction }
{
    match direction {
        Some(Direction::Input) => true,
        Some(Direction::Output) => false,
        Some(Direction::Inout) => false,
        None => false,
    }
}

/// Whether it is an output.
fn is_output(direction: Option<Direction>) -> bool
    ensures { result ≡ is_output direction }
{
    match direction {
        Some(Direction::Input) => false,
        Some(Direction::Output) => true,
        Some(Direction::Inout) => false,
        None => false,
    }
}

/// Whether a port leads both ways, or no direction is told.
pub fn is_either(direction: Option<Direction>) -> bool
    ensures { result ≡ is_either direction }
{
    match direction {
        Some(Direction::Input) => false,
        Some(Direction::Output) => false,
        Some(Direction::Inout) => true,
        None => true,
    }
}

/// Whether a pin of the occurrence at a path drives its net strongly, by the direction of its port.
pub fn is_strong_port(path: &[u32], direction: Option<Direction>) -> bool
    ensures { result ≡ is_strong_port path.now direction }
{
    if path.is_empty() {
        is_input(direction)
    } else {
        is_output(direction)
    }
}

/// Whether a pin of the occurrence at a path calls for a net, by the direction of its port.
pub fn is_open_port(path: &[u32], direction: Option<Direction>) -> bool
    ensures { result ≡ is_open_port path.now direction }
{
    if path.is_empty() {
        false
    } else {
        is_input(direction)
    }
}
