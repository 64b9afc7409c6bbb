//! The text of a path by that of its steps.
ghost use Rattle.std.specs.Prelude.{◌≡◌, ℕ, List, Some};
ghost use Rattle.std.specs.Option.{option_map};
ghost use Rattle.netlist_schema.specs.Design.{Design};
ghost use Rattle.netlist_schema.specs.Types.{CellId as Cell};
ghost use Rattle.flat_lines_spec.specs.Lines.{path_text};
ghost use Rattle.path_texts.specs.Texts.{steps_text};

use netlist_schema::CellId;

/// The text of the path of an occurrence, and its cell.
#[derive(Clone, Copy)]
pub struct PathText<'a> {
    pub text: &'a [u8],
    pub cell: CellId,
}

/// The text of a path whose steps have this text: `/` alone where there are none.
#[inline(always)]
pub fn or_slash(text: &[u8]) -> &[u8]
    ensures { (d : Design) (root : Cell) (path : List ℕ) → option_map (λ t. t.cell) d.top ≡ Some root → text.now ≡ steps_text d root path → result.now ≡ path_text d path }
{
    if text.is_empty() { b"/" } else { text }
}
