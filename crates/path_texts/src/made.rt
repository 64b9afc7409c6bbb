//! The text of any path.
ghost use Rattle.std.specs.Prelude.{◌≡◌, ◌++◌, [], ℕ, IfOk, List, OnOk};
ghost use Rattle.std.specs.Option.{option_map_or};
ghost use Rattle.flat_spec.specs.Effective.{names_along};
ghost use Rattle.flat_spec.specs.Paths.{cell_along, cell_below_top};
ghost use Rattle.flat_lines_spec.specs.Lines.{path_text};
ghost use Rattle.path_texts.specs.Texts.{behind_slashes};

use flat_lookup::inst_at;
use netlist_schema::{CellId, NoMemory, Shown};

/// Appends `/` and the identifier of each instance to which the steps lead from a cell, and returns the cell that they reach. A
/// step that leads nowhere is the last, and then there is none. After `NoMemory` some bytes may stand behind those before.
fn push_steps<S: Shown>(
    design: &S,
    root: CellId,
    steps: &[u32],
    out: &mut Vec<u8>,
) -> Result<Option<CellId>, NoMemory>
    ensures cell { IfOk result (λ cell. cell ≡ cell_along (S.design design.now) root steps.now) }
    ensures text { OnOk result (out.new.items ≡ out.old.items ++ behind_slashes (names_along (S.design design.now) root steps.now)) }
    ensures grows { (more : List ℕ) × (out.new.items ≡ out.old.items ++ more) }
{
    let mut at = root;
    for step in steps {
        let Some(inst) = inst_at(design, at, *step) else {
            return Ok(None);
        };
        out.push(b'/')?;
        out.extend_from_slice(inst.name.id.as_slice())?;
        at = inst.of;
    }
    Ok(Some(at))
}

/// The same from the cell of the top: nothing and none where the design has no top.
fn push_names<S: Shown>(
    design: &S,
    path: &[u32],
    out: &mut Vec<u8>,
) -> Result<Option<CellId>, NoMemory>
    ensures cell { IfOk result (λ cell. cell ≡ cell_below_top (S.design design.now) path.now) }
    ensures text { OnOk result (out.new.items
        ≡ out.old.items ++ behind_slashes (option_map_or (λ top. names_along (S.design design.now) top.cell path.now) (S.design design.now).top [])) }
    ensures grows { (more : List ℕ) × (out.new.items ≡ out.old.items ++ more) }
{
    let Some(top) = design.top() else {
        return Ok(None);
    };
    push_steps(design, top.cell, path, out)
}

/// Appends the text of a path, and returns the cell that it reaches: none where a step leads nowhere, which is then the last one of the
/// text, and where the design has no top. After `NoMemory` some bytes may stand behind those before.
pub fn push_path<S: Shown>(
    design: &S,
    path: &[u32],
    out: &mut Vec<u8>,
) -> Result<Option<CellId>, NoMemory>
    ensures cell { IfOk result (λ cell. cell ≡ cell_below_top (S.design design.now) path.now) }
    ensures text { OnOk result (out.new.items ≡ out.old.items ++ path_text (S.design design.now) path.now) }
    ensures grows { (more : List ℕ) × (out.new.items ≡ out.old.items ++ more) }
{
    let before = out.len();
    let cell = push_names(design, path, out)?;
    if out.len() > before {
        return Ok(cell);
    }
    out.push(b'/')?;
    Ok(cell)
}
