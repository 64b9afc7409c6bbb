//! The form of a file.
ghost use Rattle.std.specs.Prelude.{◌≡◌, ◌⊎◌, [], Ok, Err};
ghost use Rattle.edif_spelling_spec.specs.Tree.{Placed, bare};
ghost use Rattle.netlist_schema.specs.Valid.{IsValid};
ghost use Rattle.edif_spec.specs.Design as design;
ghost use Rattle.edif_spec.specs.Means.{MeansFile};
ghost use Rattle.edif_spec.specs.Stands.{FileFault, Stands};
ghost use Rattle.edif_spec.specs.declared.fault.MeaningFault.{MeaningFault};
ghost use Rattle.edif_tree.specs.Handles.{here, all};
ghost use Rattle.edif_tree.specs.Nodes.{IsAt};
ghost use Rattle.edif_build.specs.Files.{DesignAt, FollowersFail, HasFixed, ReadBody, ReadFollowers, ReadForm, ReadHeads, ReadRoot, SecondDesigns, head_of, notes_of};
ghost use Rattle.edif_build.specs.Libraries.{LibsAre};
ghost use Rattle.edif_parts.specs.Reading.{Answers};
ghost use Rattle.edif_parts.specs.declared.error.EdifError.TheVariants.{NoMemory};

use crate::levels::{read_keyword_map, read_level, read_version};
use crate::libraries::add_libraries;
use crate::top::{Top, read_top};
use edif_contents::Libraries;
use edif_grammar::{Breach, Form, is_form_of, parts_of};
use edif_parts::{EdifError, bad_form, clash, read_name};
use edif_spec::{ClashKind, Keyword, MeaningFault};
use edif_tree::{Node, Nodes, Tree};
use netlist_schema::{Copied, Design, Lib, Name, Row};
use std::alloc::Global;

/// The form of a file, as its tree lends it.
#[derive(Clone, Copy)]
pub struct FileForm<'a> {
    /// Its name, its version, its level and its keyword map.
    pub fixed: Nodes<'a>,
    /// What follows them, in order.
    pub inner: Nodes<'a>,
    /// The place of the design among what follows, where there is one.
    pub design: Option<usize>,
}

/// The place of the one design among these followers of a file, where there is one. Takes no memory.
fn find_design(inner: Nodes<'_>) -> Result<Option<usize>, EdifError>
    ensures { Answers (DesignAt (all inner.entry)) (SecondDesigns (all inner.entry)) result }
{
    let mut found = None;
    for i in 0..inner.len() {
        let node = inner.at(i);
        if !is_form_of(node, Keyword::Design) {
            continue;
        }
        if let Some(first) = found {
            let earlier = inner.at(first).place();
            return Err(clash(ClashKind::SecondDesign, node.place(), earlier));
        }
        found = Some(i);
    }
    Ok(found)
}

/// The parts of the form at a node, where it is that of a file.
fn read_root(alloc: Global, root: Node<'_>) -> Result<Form<'_>, EdifError>
    ensures { Answers (ReadRoot (here root.entry)) (Stands (here root.entry)) result }
{
    match parts_of(root, None) {
        Ok(parts) => Ok(parts),
        Err(Breach::NotInProfile { keyword, place }) => {
            let keyword = keyword.copy(alloc)?;
            Err(EdifError::Fault(MeaningFault::NotInProfile { keyword, place }))
        }
        Err(Breach::BadForm { place }) => Err(bad_form(place)),
    }
}

/// The form of a file at a node, with one design at most.
fn read_form(alloc: Global, root: Node<'_>) -> Result<FileForm<'_>, EdifError>
    ensures { Answers (ReadForm (here root.entry)) (Stands (here root.entry)) result }
{
    let parts = read_root(alloc, root)?;
    let design = find_design(parts.inner)?;
    Ok(FileForm {
        fixed: parts.fixed,
        inner: parts.inner,
        design,
    })
}

/// The title of a file, whose version, level and keyword map are read beside it.
fn read_heads(alloc: Global, fixed: Nodes<'_>) -> Result<Name, EdifError>
    requires { (t : Placed) × HasFixed t (all fixed) }
    ensures { (t : Placed) → HasFixed t (all fixed.entry) → Answers (ReadHeads t) (FileFault t) result }
{
    read_version(alloc, fixed.at(1))?;
    read_level(alloc, fixed.at(2), Keyword::EdifLevel)?;
    read_keyword_map(alloc, fixed.at(3))?;
    let title = read_name(alloc, fixed.at(0))?;
    Ok(title.name)
}

/// The top among these followers of a file, whose libraries are added. The design's form sees those before it.
fn read_followers(
    alloc: Global,
    inner: Nodes<'_>,
    design: Option<usize>,
    libs: &mut Libraries,
) -> Result<Option<Top>, EdifError>
    requires design { DesignAt (all inner) design }
    requires known { LibsAre [] libs.old }
    ensures { Answers (ReadFollowers (all inner.entry) libs.new) (FollowersFail (all inner.entry)) result }
{
    let Some(at) = design else {
        add_libraries(alloc, inner, libs)?;
        return Ok(None);
    };
    let (before, _) = inner.split_at(at);
    add_libraries(alloc, before, libs)?;
    let top = read_top(alloc, inner.at(at), libs)?;
    let (_, behind) = inner.split_at(at + 1);
    add_libraries(alloc, behind, libs)?;
    Ok(Some(top))
}

/// The libraries of a file, and its top.
#[derive(Drop)]
struct Body {
    /// The libraries, in order.
    libs: Row<Lib>,
    /// The top, where there is one.
    top: Option<Top>,
}

/// The libraries and the top that the form of a file has.
fn read_body(alloc: Global, form: FileForm<'_>) -> Result<Body, EdifError>
    requires { DesignAt (all form.inner) form.design }
    ensures { Answers (λ b. ReadBody (all form.entry.inner) b.libs b.top) (FollowersFail (all form.entry.inner)) result }
{
    let mut libs = Libraries::new(alloc);
    let top = read_followers(alloc, form.inner, form.design, &mut libs)?;
    let libs = libs.into_libs()?;
    Ok(Body { libs, top })
}

/// The design of these parts. Takes no memory.
fn design_of(alloc: Global, title: Name, body: Body) -> Design
    requires { IsValid (record { title = title; libs = body.libs; top = head_of body.top; notes = notes_of body.top }) }
    ensures { result ≡ record { title = title; libs = body.libs; top = head_of body.top; notes = notes_of body.top } }
{
    let Body { libs, top } = body;
    match top {
        Some(top) => {
            let Top { head, notes } = top;
            Design::of(title, libs, Some(head), notes)
        }
        None => Design::of(title, libs, None, Row::of(Vec::new(alloc))),
    }
}

/// The design that the tree of a file means.
fn read_whole(alloc: Global, tree: &Tree) -> Result<Design, EdifError>
    ensures { (t : Placed) → IsAt tree.now.rows tree.now.root t → Answers (λ d. MeansFile (bare t) d) (Stands t) result }
{
    let form = read_form(alloc, tree.root())?;
    let title = read_heads(alloc, form.fixed)?;
    let body = read_body(alloc, form)?;
    Ok(design_of(alloc, title, body))
}

/// The design that the tree of a file means. A fault that is named stands in the tree; where several do, it is any of them.
/// `NoMemory` says nothing of the tree.
pub fn read_design(alloc: Global, tree: &Tree) -> Result<Design, EdifError>
    ensures reads { (t : Placed) → IsAt tree.now.rows tree.now.root t → Answers (λ d. MeansFile (bare t) d) (Stands t) result }
    ensures means { (t : Placed) (d : design.Design) → IsAt tree.now.rows tree.now.root t → MeansFile (bare t) d → (result ≡ Ok d) ⊎ (result ≡ Err NoMemory) }
    ensures faulty { (t : Placed) (f : MeaningFault) (d : design.Design) → IsAt tree.now.rows tree.now.root t → Stands t f → result ≡ Ok d → ⊥ }
{
    read_whole(alloc, tree)
}
