//! The version, the levels and the keyword map.
ghost use Rattle.std.specs.Prelude.{◌≡◌, [], ◌∷◌, pos, true};
ghost use Rattle.edif_spelling_spec.specs.Tree.{bare, integer};
ghost use Rattle.edif_spec.specs.Means.{IsLevel};
ghost use Rattle.edif_spec.specs.Rows.{IsFormOf, has_keyword};
ghost use Rattle.edif_spec.specs.Stands.{LevelFault, MapFault, VersionFault};
ghost use Rattle.edif_spec.specs.declared.keyword.Keyword.TheVariants.{EdifVersion, KeywordMap};
ghost use Rattle.edif_tree.specs.Handles.{here};
ghost use Rattle.edif_build.specs.Levels.{IsKeywordMap, IsLevelForm, IsOther};
ghost use Rattle.edif_parts.specs.Reading.{Answers};

use edif_parts::{EdifError, fault_at, read_parts};
use edif_spec::{Keyword, Kind};
use edif_tree::{Node, Shape};
use std::alloc::Global;

/// Asks for a number at a node. Takes no memory.
fn check_number(node: Node<'_>, wanted: i64, kind: Kind) -> Result<(), EdifError>
    ensures { Answers (λ _. bare (here node.entry) ≡ integer wanted) (IsOther wanted kind (here node.entry)) result }
{
    let place = node.place();
    match node.shape() {
        Shape::Integer(value) => {
            if value == wanted {
                Ok(())
            } else {
                Err(fault_at(kind, place))
            }
        }
        _ => Err(fault_at(kind, place)),
    }
}

/// Reads a level, which is to be 0.
pub(crate) fn read_level(alloc: Global, node: Node<'_>, keyword: Keyword) -> Result<(), EdifError>
    requires level { IsLevelForm keyword }
    requires keyword { has_keyword keyword (bare (here node)) ≡ true }
    ensures { Answers (λ _. IsLevel keyword (bare (here node.entry))) (LevelFault keyword (here node.entry)) result }
{
    let parts = read_parts(alloc, node, keyword)?;
    check_number(parts.fixed.at(0), 0, Kind::BadLevel)
}

/// Reads the version, which is to be 2 0 0.
pub(crate) fn read_version(alloc: Global, node: Node<'_>) -> Result<(), EdifError>
    requires { has_keyword EdifVersion (bare (here node)) ≡ true }
    ensures { Answers (λ _. IsFormOf EdifVersion (bare (here node.entry)) (integer (pos 2) ∷ integer (pos 0) ∷ integer (pos 0) ∷ []) []) (VersionFault (here node.entry)) result }
{
    let parts = read_parts(alloc, node, Keyword::EdifVersion)?;
    check_number(parts.fixed.at(0), 2, Kind::BadVersion)?;
    check_number(parts.fixed.at(1), 0, Kind::BadVersion)?;
    check_number(parts.fixed.at(2), 0, Kind::BadVersion)
}

/// Reads the keyword map, whose level is to be 0.
pub(crate) fn read_keyword_map(alloc: Global, node: Node<'_>) -> Result<(), EdifError>
    requires { has_keyword KeywordMap (bare (here node)) ≡ true }
    ensures { Answers (λ _. IsKeywordMap (bare (here node.entry))) (MapFault (here node.entry)) result }
{
    let parts = read_parts(alloc, node, Keyword::KeywordMap)?;
    read_level(alloc, parts.fixed.at(0), Keyword::KeywordLevel)
}
