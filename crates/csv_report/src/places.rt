//! Paths of occurrences as text, and identifiers of what stands at them.
ghost use Rattle.std.specs.Prelude.{◌≡◌, [], IfOk};
ghost use Rattle.std.specs.Option.{option_map, option_map_or};
ghost use Rattle.flat_spec.specs.Paths.{cell_below_top};
ghost use Rattle.flat_lines_spec.specs.Lines.{net_text, path_text, port_text};
ghost use Rattle.flat_items.specs.Lent.{net_of};

use flat_items::NetRef;
use flat_lookup::cell_along;
use netlist_schema::{CellId, NoMemory, Shown};
use path_texts::push_path;
use std::alloc::Global;

/// The path of an occurrence: `/` before the identifier of each instance to which it leads from the top, and `/` alone for the top.
pub fn path_bytes<S: Shown>(alloc: Global, design: &S, path: &[u32]) -> Result<Vec<u8>, NoMemory>
    ensures { IfOk result (λ text. text.items ≡ path_text (S.design design.now) path.now) }
{
    let mut text = Vec::new(alloc);
    push_path(design, path, &mut text)?;
    Ok(text)
}

/// The cell of the occurrence at a path, where there is one.
fn cell_at_path<S: Shown>(design: &S, path: &[u32]) -> Option<CellId>
    ensures { result ≡ cell_below_top (S.design design.now) path.now }
{
    match design.top() {
        Some(top) => cell_along(design, top.cell, path),
        None => None,
    }
}

/// The identifier of a port of the occurrence at a path; nothing where there is no such port.
pub fn port_name<'a, S: Shown>(design: &'a S, path: &[u32], port: u32) -> &'a [u8]
    ensures { result.now ≡ port_text (S.design design.now) path.now port }
{
    flat_lookup::port_name(design, cell_at_path(design, path), port)
}

/// The identifier of a net; nothing where there is no such net.
pub fn net_name<'a, S: Shown>(design: &'a S, net: NetRef<'_>) -> &'a [u8]
    ensures { result.now ≡ net_text (S.design design.now) (net_of net.entry) }
{
    flat_lookup::net_name(design, cell_at_path(design, net.path), net.net)
}

/// The path of a representative; no bytes where there is none.
pub(crate) fn first_path_bytes<S: Shown>(
    alloc: Global,
    design: &S,
    first: Option<NetRef<'_>>,
) -> Result<Vec<u8>, NoMemory>
    ensures { IfOk result (λ text. text.items ≡ option_map_or (λ net. path_text (S.design design.now) net.path) (option_map net_of first.entry) []) }
{
    match first {
        Some(net) => path_bytes(alloc, design, net.path),
        None => Ok(Vec::new(alloc)),
    }
}

/// The identifier of a representative; nothing where there is none.
pub(crate) fn first_name<'a, S: Shown>(design: &'a S, first: Option<NetRef<'_>>) -> &'a [u8]
    ensures { result.now ≡ option_map_or (net_text (S.design design.now)) (option_map net_of first.entry) [] }
{
    match first {
        Some(net) => net_name(design, net),
        None => &[],
    }
}
