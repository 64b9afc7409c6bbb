//! The contents of a cell: instances and nets.
ghost use Rattle.std.specs.Prelude.{◌≡◌, true};
ghost use Rattle.edif_spelling_spec.specs.Tree.{bare};
ghost use Rattle.edif_spec.specs.Design as design;
ghost use Rattle.edif_spec.specs.Rows.{has_keyword};
ghost use Rattle.edif_spec.specs.Stands.{ContentsFault};
ghost use Rattle.edif_spec.specs.declared.keyword.Keyword.TheVariants.{Contents as ContentsWord};
ghost use Rattle.edif_tree.specs.Handles.{here};
ghost use Rattle.edif_contents.specs.Insides.{ReadContents};
ghost use Rattle.edif_parts.specs.Names.{ids};
ghost use Rattle.edif_parts.specs.Reading.{Answers};

use crate::ends::Surroundings;
use crate::insts::{Insts, read_insts};
use crate::known::Libraries;
use crate::nets::read_nets;
use edif_parts::{EdifError, Names, read_parts};
use edif_spec::Keyword;
use edif_tree::Node;
use netlist_schema::{Contents, Parts, Port, Shared};
use std::alloc::Global;

/// The contents that a form at a node means, in a cell with these ports, whose names are `names`, of the library `own`.
pub fn read_contents(
    alloc: Global,
    node: Node<'_>,
    libs: &Libraries,
    own: Option<u32>,
    ports: &[Port],
    names: &Names,
) -> Result<Shared<Contents>, EdifError>
    requires keyword { has_keyword ContentsWord (bare (here node)) ≡ true }
    requires names { ids names.now ≡ design.port_ids ports.now }
    ensures { Answers (ReadContents libs.now.libs own ports.now (here node.entry)) (ContentsFault libs.now.libs own ports.now (here node.entry)) result }
{
    let parts = read_parts(alloc, node, Keyword::Contents)?;
    let insts = read_insts(alloc, parts.inner, libs, own)?;
    let around = Surroundings {
        libs,
        ports,
        port_names: names,
        insts: insts.list.as_slice(),
        inst_names: &insts.names,
    };
    let nets = read_nets(alloc, parts.inner, &around)?;
    let Insts { list, names } = insts;
    drop(names);
    let placed = Parts::of(alloc, list)?;
    let contents = Contents {
        insts: placed,
        nets,
    };
    Ok(Shared::of(alloc, contents)?)
}
