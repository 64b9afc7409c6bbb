//! The effective properties of an occurrence.
ghost use Rattle.std.specs.Prelude.{◌≡◌, ◌++◌, [], IfOk, None, filter, map, nat_eq, not};
ghost use Rattle.std.specs.Cmp.Lexicographic.{pointwise};
ghost use Rattle.std.specs.List.{last_or, list_any};
ghost use Rattle.std.specs.Option.{option_map_or};
ghost use Rattle.flat_spec.specs.Effective.{effective as properties_at, insts_along, merged, notes_for, replaced, same_key};
ghost use Rattle.annot_view.specs.Lent.{lent, lent_names};

use flat_lookup::inst_at;
use flat_spec::Path;
use netlist_schema::{CellId, Copied, Ident, Inst, NoMemory, Note, Property, Row, Shown, TopHead};
use std::alloc::Global;

/// The effective properties of the occurrence at a path: those of its instance, of the top those of the design; in place of
/// each the first note for the occurrence that has its key, where there is one; and then the other notes for it, in their order.
/// A design without a top has no occurrences, and the answer is empty. The one error is that an allocation was refused.
pub fn effective<S: Shown>(
    alloc: Global,
    design: &S,
    path: &Path,
) -> Result<Row<Property>, NoMemory>
    ensures { IfOk result (λ properties. properties ≡ option_map_or (λ top. properties_at (S.design design.now) top path.now) (S.design design.now).top []) }
{
    let Some(top) = design.top() else {
        return Ok(Row::of(Vec::new(alloc)));
    };
    let insts = insts_along(alloc, design, top.cell, path.as_slice())?;
    let notes = notes_for(alloc, design.notes().as_slice(), insts.as_slice())?;
    let base = base_properties(top, insts.as_slice());
    merged(alloc, base, notes.as_slice())
}

/// The instances through which the path goes from a cell downwards, as far as it leads.
fn insts_along<'a, S: Shown>(
    alloc: Global,
    design: &'a S,
    root: CellId,
    path: &[u32],
) -> Result<Vec<&'a Inst>, NoMemory>
    ensures { IfOk result (λ insts. lent insts.items ≡ insts_along (S.design design.now) root path.now) }
{
    let mut insts = Vec::new(alloc);
    let mut cell = root;
    for step in path {
        let Some(inst) = inst_at(design, cell, *step) else {
            return Ok(insts);
        };
        insts.push(inst)?;
        cell = inst.of;
    }
    Ok(insts)
}

/// The properties that notes may change: those of the last instance on the path, and at the top those of the design.
#[tactic(auto, using(crate::proofs::LastLemmas::last_lent))]
fn base_properties<'a>(top: &'a TopHead, insts: &[&'a Inst]) -> &'a [Property]
    ensures { result.now ≡ option_map_or (λ inst. inst.properties) (last_or None (lent insts.now)) top.now.properties }
{
    match insts.last() {
        Some(inst) => inst.properties.as_slice(),
        None => top.properties.as_slice(),
    }
}

/// Whether the identifiers are those of the instances, one by one.
fn are_names_of(names: &[Ident], insts: &[&Inst]) -> bool
    ensures { result ≡ pointwise (pointwise nat_eq) names.now (lent_names insts.now) }
{
    names.len() == insts.len()
        && names
            .iter()
            .zip(insts)
            .all(|(name, inst)| *name == inst.name.id)
}

/// The properties of the notes whose path has the identifiers of these instances, in order.
fn notes_for<'a>(
    alloc: Global,
    notes: &'a [Note],
    insts: &[&Inst],
) -> Result<Vec<&'a Property>, NoMemory>
    ensures { IfOk result (λ found. lent found.items ≡ notes_for (lent_names insts.now) notes.now) }
{
    let mut found = Vec::new(alloc);
    for note in notes {
        if are_names_of(note.path.as_slice(), insts) {
            found.push(&note.property)?;
        }
    }
    Ok(found)
}

/// Whether two properties have equal keys.
fn is_same_key(first: &Property, second: &Property) -> bool
    ensures { result ≡ same_key first.now second.now }
{
    first.key.id == second.key.id
}

/// The first of the notes that has the property's key, where there is one, else the property itself.
fn replaced<'a>(notes: &[&'a Property], property: &'a Property) -> &'a Property
    ensures { result.now ≡ replaced (lent notes.now) property.now }
{
    for note in notes {
        if is_same_key(property, note) {
            return note;
        }
    }
    property
}

/// Whether a property has the note's key.
fn has_key_of(base: &[Property], note: &Property) -> bool
    ensures { result ≡ list_any (same_key note.now) base.now }
{
    base.iter().any(|property| is_same_key(note, property))
}

/// Each base property, or the note that replaces it.
fn with_replaced<'a>(
    alloc: Global,
    base: &'a [Property],
    notes: &[&'a Property],
) -> Result<Vec<Property>, NoMemory>
    ensures { IfOk result (λ properties. properties.items ≡ map (replaced (lent notes.now)) base.now) }
{
    let mut properties = Vec::new(alloc);
    for property in base {
        properties.push(replaced(notes, property).copy(alloc)?)?;
    }
    Ok(properties)
}

/// The properties, and behind them the notes that replace no base property.
fn with_others(
    alloc: Global,
    mut properties: Vec<Property>,
    base: &[Property],
    notes: &[&Property],
) -> Result<Row<Property>, NoMemory>
    ensures { IfOk result (λ all. all ≡ properties.items ++ filter (λ note. not (list_any (same_key note) base.now)) (lent notes.now)) }
{
    for note in notes {
        if !has_key_of(base, note) {
            properties.push(note.copy(alloc)?)?;
        }
    }
    Ok(Row::of(properties))
}

/// Each base property or the note that replaces it, and then the notes that replace none.
pub fn merged<'a>(
    alloc: Global,
    base: &'a [Property],
    notes: &[&'a Property],
) -> Result<Row<Property>, NoMemory>
    ensures { IfOk result (λ properties. properties ≡ merged base.now (lent notes.now)) }
{
    let properties = with_replaced(alloc, base, notes)?;
    with_others(alloc, properties, base, notes)
}
