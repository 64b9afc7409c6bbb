//! Paths, and nets at paths.
ghost use Rattle.std.specs.Prelude.{◌≡◌, ◌++◌, codes, IfOk, OnOk};
ghost use Rattle.edif_names.specs.Parts.{Grows};
ghost use Rattle.flat_lines_spec.specs.Lines.{net_words, path_text};
ghost use Rattle.flat_report.specs.Parts.{behind_blanks};
ghost use Rattle.flat_spec.specs.Paths.{at_path, cell_below_top};
ghost use Rattle.flat_items.specs.Lent.{net_of};

use crate::words::push_word;
use flat_items::NetRef;
use flat_lookup::net_name;
use netlist_schema::{CellId, NoMemory, Shown};
use path_texts::push_path;

/// Appends a blank and a path, and returns the cell that it reaches. After `NoMemory` some bytes may stand behind those before.
pub(crate) fn push_place<S: Shown>(
    design: &S,
    path: &[u32],
    out: &mut Vec<u8>,
) -> Result<Option<CellId>, NoMemory>
    ensures cell { IfOk result (λ cell. cell ≡ cell_below_top (S.design design.now) path.now) }
    ensures text { OnOk result (out.new.items ≡ out.old.items ++ (codes " " ++ path_text (S.design design.now) path.now)) }
    ensures grows { Grows out.old.items out.new.items }
{
    out.push(b' ')?;
    push_path(design, path, out)
}

/// Appends the path and the identifier of a net, each behind a blank. After `NoMemory` some bytes may stand behind those before.
pub(crate) fn push_net_words<S: Shown>(
    design: &S,
    path: &[u32],
    net: u32,
    out: &mut Vec<u8>,
) -> Result<(), NoMemory>
    ensures ok { OnOk result (out.new.items ≡ out.old.items ++ behind_blanks (net_words (S.design design.now) (at_path path.now net))) }
    ensures grows { Grows out.old.items out.new.items }
{
    let cell = push_place(design, path, out)?;
    push_word(net_name(design, cell, net), out)
}

/// Appends the path and the identifier of a representative, each behind a blank. After `NoMemory` some bytes may stand behind
/// those before.
pub(crate) fn push_first<S: Shown>(
    design: &S,
    first: NetRef<'_>,
    out: &mut Vec<u8>,
) -> Result<(), NoMemory>
    ensures ok { OnOk result (out.new.items ≡ out.old.items ++ behind_blanks (net_words (S.design design.now) (net_of first.entry))) }
    ensures grows { Grows out.old.items out.new.items }
{
    push_net_words(design, first.path, first.net, out)
}
