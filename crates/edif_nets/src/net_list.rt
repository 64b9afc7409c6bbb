//! Nets as they are read, in order, and the names of all of them.
ghost use Rattle.std.specs.Prelude.{◌≡◌, [], IfOk, IsTrue, None, OnOk, length, map};
ghost use Rattle.edif_nets.specs.Keys.{name_key};
ghost use Rattle.edif_nets.specs.NetLists.{AreNamedAlike, AreNamedApart, NetAdded, named};
ghost use Rattle.edif_parts.specs.Names.{DefinesName, IsAgain, ids};
ghost use Rattle.edif_parts.specs.Reading.{Answers};
ghost use Rattle.edif_spec.specs.Faults.{AtTwo, SameOfTwo};
ghost use Rattle.netlist_schema.specs.Names.{AreDistinct};

use crate::differ::{differ, name_key};
use crate::limits::small;
use edif_parts::{EdifError, OwnNames, append, room_for};
use edif_spec::Keyword;
use edif_tree::Nodes;
use netlist_schema::{Listed, Net, NoMemory, Parts};
use std::alloc::Global;

/// Nets, in order, and where their names and their ends stand.
pub struct NetList {
    /// The nets.
    pub nets: Vec<Listed<Net>>,
    /// Of each the number of bytes before the identifier of its name.
    pub places: Vec<u32>,
    /// Of each end of them, net by net, the number of bytes before its form.
    pub ends: Vec<u32>,
}

impl Drop for NetList {
    fn drop(self) {
        let NetList {
            nets: _,
            places: _,
            ends: _,
        } = self;
    }
}

impl NetList {
    /// No nets, with room for those of these followers of a form.
    pub fn for_forms(alloc: Global, inner: Nodes<'_>) -> Result<NetList, NoMemory>
        ensures { IfOk result (λ list. (list.nets.items ≡ []) × (list.places.items ≡ []) × (list.ends.items ≡ [])) }
    {
        Ok(NetList {
            nets: room_for(alloc, inner, Keyword::Net)?,
            places: Vec::new(alloc),
            ends: Vec::new(alloc),
        })
    }

    /// Adds a net, whose name stands at this place.
    pub(crate) fn add(&mut self, alloc: Global, net: Net, place: u64) -> Result<(), NoMemory>
        ensures { OnOk result (NetAdded net place self.old self.new) }
    {
        let place = small(place)?;
        self.nets.push(Listed::of(alloc, net)?)?;
        append(&mut self.places, place)?;
        Ok(())
    }

    /// The nets.
    pub fn into_nets(self, alloc: Global) -> Result<Parts<Listed<Net>>, NoMemory>
        ensures { IfOk result (λ nets. nets ≡ self.nets.items) }
    {
        let NetList {
            nets,
            places: _,
            ends: _,
        } = self;
        Parts::of(alloc, nets)
    }
}

/// Adds the name of a net, which stands at this place and is not there yet; else the error says that it is.
fn add_name(net: &Listed<Net>, place: u32, names: &mut OwnNames) -> Result<(), EdifError>
    ensures { Answers (λ _. DefinesName names.old net.now.name.id place names.new None) (IsAgain names.old net.now.name.id place) result }
{
    names.add(&net.name.id, u64::from(place))?;
    Ok(())
}

/// Adds the names of nets, which stand in these places and differ; else the error is that one is defined again. None is there before.
fn add_names(nets: &[Listed<Net>], places: &[u32], names: &mut OwnNames) -> Result<(), EdifError>
    requires places { length places.now ≡ length nets.now }
    requires names { names.old ≡ [] }
    ensures { Answers (λ _. AreDistinct (ids (named nets.now places.now))) (λ f. AtTwo (SameOfTwo f) (named nets.now places.now)) result }
{
    for (index, net) in nets.iter().enumerate() {
        add_name(net, places[index], names)?;
    }
    Ok(())
}

/// Puts the names of nets into a table, as `check_names` answers.
fn find_again(alloc: Global, list: &NetList) -> Result<(), EdifError>
    requires { length list.now.places.items ≡ length list.now.nets.items }
    ensures { Answers (λ _. AreNamedApart list.now) (AreNamedAlike list.now) result }
{
    let mut names = OwnNames::new(alloc);
    add_names(list.nets.as_slice(), list.places.as_slice(), &mut names)
}

/// The numbers of the names of nets, in order.
fn name_keys(alloc: Global, nets: &[Listed<Net>]) -> Result<Vec<u64>, NoMemory>
    ensures { IfOk result (λ keys. keys.items ≡ map (λ n. name_key 0 n.name.id) nets.now) }
{
    let mut keys = Vec::with_capacity(alloc, nets.len())?;
    for net in nets {
        append(&mut keys, name_key(&net.name.id))?;
    }
    Ok(keys)
}

/// Whether no two of the names of nets have one number.
fn names_apart(alloc: Global, nets: &[Listed<Net>]) -> Result<bool, NoMemory>
    ensures { IfOk result (λ apart. IsTrue apart → AreDistinct (map (λ n. n.name.id) nets.now)) }
{
    let mut keys = name_keys(alloc, nets)?;
    differ(alloc, &mut keys)
}

/// Whether the names of nets differ; else the error is that one is defined again. Their numbers take far less memory than a table of
/// them, which is made only where two numbers are equal.
pub fn check_names(alloc: Global, list: &NetList) -> Result<(), EdifError>
    requires { length list.now.places.items ≡ length list.now.nets.items }
    ensures { Answers (λ _. AreNamedApart list.now) (AreNamedAlike list.now) result }
{
    let apart = names_apart(alloc, list.nets.as_slice())?;
    if apart {
        return Ok(());
    }
    find_again(alloc, list)
}
