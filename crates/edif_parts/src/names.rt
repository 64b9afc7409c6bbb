//! Names, and the names of a list of forms.
ghost use Rattle.std.specs.Prelude.{◌≡◌, ◌∷◌, [], Some, IfErr, IfOk, OnErr, OnOk, IsTrue, true};
ghost use Rattle.edif_spelling_spec.specs.Tree.{bare};
ghost use Rattle.netlist_schema.specs.Typed.{IsTypedName};
ghost use Rattle.edif_spec.specs.Faults.{RowFault, name_of};
ghost use Rattle.edif_spec.specs.Keyword.{name_definition};
ghost use Rattle.edif_spec.specs.Means.{MeansName, meant};
ghost use Rattle.edif_spec.specs.Rows.{has_keyword, is_one_of};
ghost use Rattle.edif_spec.specs.Stands.{NameFault};
ghost use Rattle.edif_spec.specs.declared.keyword.Keyword.TheVariants.{Rename};
ghost use Rattle.edif_tree.specs.Handles.{here};
ghost use Rattle.edif_parts.specs.Names.{DefinesName, IsAgain, Tells, ids};
ghost use Rattle.edif_parts.specs.Reading.{Answers, Names as FailsBy};

use crate::error::{EdifError, clash};
use crate::few_names::FewNames;
use crate::name_table::NameTable;
use crate::parts::{read_parts, room_wanted, string_at, word_at};
use crate::texts::text_of;
use edif_names::Meant;
use edif_spec::{ClashKind, Keyword};
use edif_tree::{Node, Nodes, Shape};
use netlist_schema::{Copied, Ident, Name, NoMemory};
use std::alloc::Global;
use std::marker::Model;

/// A name, and where its identifier stands.
#[derive(Drop)]
pub struct NameAt {
    /// The name.
    pub name: Name,
    /// The number of bytes before its identifier.
    pub place: u64,
}

/// The name that a name definition at a node means.
pub fn read_name(alloc: Global, node: Node<'_>) -> Result<NameAt, EdifError>
    requires { IsTrue (is_one_of name_definition (bare (here node))) }
    ensures { Answers (λ n. MeansName (bare (here node.entry)) n.name × IsTypedName n.name × (name_of (here node.entry) ≡ Some (n.name.id, n.place))) (NameFault (here node.entry)) result }
{
    match node.shape() {
        Shape::Word(id) => {
            let id = Copied::copy(id, alloc)?;
            let place = node.place();
            let name = Name { id, shown: None };
            Ok(NameAt { name, place })
        }
        _ => read_rename(alloc, node),
    }
}

/// The name that a rename at a node means.
fn read_rename(alloc: Global, node: Node<'_>) -> Result<NameAt, EdifError>
    requires { has_keyword Rename (bare (here node)) ≡ true }
    ensures { Answers (λ n. MeansName (bare (here node.entry)) n.name × IsTypedName n.name × (name_of (here node.entry) ≡ Some (n.name.id, n.place))) (RowFault Rename (here node.entry)) result }
{
    let parts = read_parts(alloc, node, Keyword::Rename)?;
    let first = parts.fixed.at(0);
    let id = Copied::copy(word_at(first), alloc)?;
    let text = text_of(alloc, string_at(parts.fixed.at(1)))?;
    let place = first.place();
    let name = Name {
        id,
        shown: Some(text),
    };
    Ok(NameAt { name, place })
}

/// For how many names there is no table.
const FEW: usize = 8;

/// Names, as they are kept.
#[derive(Drop)]
pub enum Kept {
    /// None yet; the first one makes a table.
    Unopened(Global),
    /// A few.
    Few(FewNames),
    /// Any number.
    Many(Box<NameTable>),
}

/// The names that a list of forms defines, no two equal byte for byte. Contracts see them in order, each with its place.
pub struct Names {
    kept: Kept,
}

impl Drop for Names {
    fn drop(self) {
        let Names { kept: _ } = self;
    }
}

impl Model for Names {
    ghost use Rattle.std.specs.Prelude.{List, ℕ};
    ghost use Rattle.edif_parts.specs.Kept.{kept_names};

    ghost Value = { List (List ℕ × ℕ) };

    ghost view = { λ s. kept_names s.kept };
}

impl Names {
    /// No names. Takes no memory.
    pub fn new(alloc: Global) -> Names
        ensures { result ≡ [] }
    {
        Names {
            kept: Kept::Unopened(alloc),
        }
    }

    /// No names, where each form of this keyword is to define one. A few take no more memory than their list.
    pub fn for_forms(alloc: Global, nodes: Nodes<'_>, keyword: Keyword) -> Result<Names, NoMemory>
        ensures { IfOk result (λ names. names ≡ []) }
    {
        let count = room_wanted(nodes, keyword);
        if count > FEW {
            return Ok(Names::new(alloc));
        }
        let few = FewNames::with_room(alloc, count)?;
        Ok(Names {
            kept: Kept::Few(few),
        })
    }

    /// Defines a name. Where an equal one is there, the answer is its place, and nothing changes; after `NoMemory` nothing has
    /// changed. There may be at most 2^32 names.
    pub fn define(&mut self, name: &Ident, place: u64) -> Result<Option<u64>, NoMemory>
        ensures ok { IfOk result (λ earlier. DefinesName self.old name.now place self.new earlier) }
        ensures err { OnErr result (self.new ≡ self.old) }
    {
        match &mut self.kept {
            Kept::Few(few) => few.define(name, place),
            Kept::Many(table) => table.define(name, place),
            Kept::Unopened(alloc) => {
                let table = first_of(*alloc, name, place)?;
                self.kept = Kept::Many(table);
                Ok(None)
            }
        }
    }

    /// Defines a name, which is not there yet; where an equal one is, the error is that the name is defined again. After an error
    /// the names are as before.
    pub fn add(&mut self, name: &Ident, place: u64) -> Result<(), EdifError>
        ensures ok { OnOk result (DefinesName self.old name.now place self.new None) }
        ensures err { IfErr result (λ e. FailsBy (IsAgain self.old name.now place) e × (self.new ≡ self.old)) }
    {
        match self.define(name, place)? {
            None => Ok(()),
            Some(earlier) => Err(clash(ClashKind::Duplicate, place, earlier)),
        }
    }

    /// What a reference means among these names, by its place in their list. Takes no memory.
    pub fn meant(&self, name: &Ident) -> Meant
        ensures { Tells (meant (ids self.now) name.now) result }
    {
        match &self.kept {
            Kept::Few(few) => few.meant(name),
            Kept::Many(table) => table.meant(name),
            Kept::Unopened(_) => Meant::Absent,
        }
    }
}

/// A table of this one name.
fn first_of(alloc: Global, name: &Ident, place: u64) -> Result<Box<NameTable>, NoMemory>
    ensures { IfOk result (λ table. table.value ≡ (name.now, place) ∷ []) }
{
    let mut table = NameTable::new(alloc);
    table.define(name, place)?;
    Ok(Box::new(alloc, table)?)
}
