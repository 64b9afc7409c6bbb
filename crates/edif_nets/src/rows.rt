//! The nets for which the form of a net stands: one, or with an array a row of them.
ghost use Rattle.std.specs.Prelude.{◌≡◌, ◌+◌, ◌^◌, ◌<◌, ◌≤◌, IfOk, None, OnOk, map};
ghost use Rattle.std.specs.List.{All};
ghost use Rattle.edif_spec.specs.Nets.{end_of, name_at, net_at, row_size, single_form};
ghost use Rattle.edif_nets.specs.NetLists.{RowAdded};

use crate::net_list::NetList;
use bus_members::member_name;
use edif_spec::{NetForm, Stretch};
use netlist_schema::{Copied, End, Name, Net, NoMemory, Row, Width};
use std::alloc::Global;

/// The number of nets in the row of a form.
pub fn row_size(array: &Option<Width>) -> u32
    ensures { result ≡ row_size array.now }
{
    match array {
        Some(width) => width.get(),
        None => 1,
    }
}

/// The name of the net of number `k` of the row of a form.
fn name_at(alloc: Global, form: &NetForm, k: u32) -> Result<Name, NoMemory>
    ensures { IfOk result (λ name. name ≡ name_at form.now.name form.now.array k) }
{
    match form.array {
        Some(_) => member_name(alloc, &form.name, k),
        None => Copied::copy(&form.name, alloc),
    }
}

/// Bit `k` of a stretch that has it.
fn end_of(k: u32, stretch: &Stretch) -> End
    requires { k + stretch.now.first < 2 ^ 32 }
    ensures { result ≡ end_of k stretch.now }
{
    End {
        inst: stretch.inst,
        port: stretch.port,
        bit: k + stretch.first,
    }
}

/// The ends of the net of number `k` of a row that joins these stretches.
fn ends_at(alloc: Global, stretches: &[Stretch], k: u32) -> Result<Row<End>, NoMemory>
    requires within { All (λ s. k + s.first < 2 ^ 32) stretches.now }
    ensures { IfOk result (λ ends. ends ≡ map (end_of k) stretches.now) }
{
    let mut ends = Vec::with_capacity(alloc, stretches.len())?;
    for stretch in stretches {
        ends.push(end_of(k, stretch))?;
    }
    Ok(Row::of(ends))
}

/// The net of number `k` of the row of a form.
fn net_at(alloc: Global, form: &NetForm, k: u32) -> Result<Net, NoMemory>
    requires within { All (λ s. k + s.first < 2 ^ 32) form.now.joined }
    ensures { IfOk result (λ net. net ≡ net_at form.now k) }
{
    let name = name_at(alloc, form, k)?;
    let ends = ends_at(alloc, form.joined.as_slice(), k)?;
    let properties = form.properties.share()?;
    Ok(Net {
        name,
        ends,
        properties,
    })
}

/// The one net of a form without an array, which takes over its name and its properties.
fn only_net(alloc: Global, form: NetForm) -> Result<Net, NoMemory>
    requires array { form.array ≡ None }
    requires within { All (λ s. s.first < 2 ^ 32) form.joined }
    ensures { IfOk result (λ net. net ≡ net_at form 0) }
{
    let ends = ends_at(alloc, form.joined.as_slice(), 0)?;
    Ok(Net {
        name: form.name,
        ends,
        properties: form.properties,
    })
}

/// Adds the nets of the row of a form, as `add_row` does, each with a share of its properties.
fn add_members(
    alloc: Global,
    form: &NetForm,
    place: u64,
    list: &mut NetList,
) -> Result<(), NoMemory>
    requires { All (λ s. s.first + row_size form.now.array ≤ 2 ^ 32) form.now.joined }
    ensures { OnOk result (RowAdded form.now place list.old list.new) }
{
    for k in 0..row_size(&form.array) {
        let net = net_at(alloc, form, k)?;
        list.add(alloc, net, place)?;
    }
    Ok(())
}

/// Adds the nets of the row of a form, whose name stands at this place. After `NoMemory` some of them may be there.
pub fn add_row(alloc: Global, form: NetForm, place: u64, list: &mut NetList) -> Result<(), NoMemory>
    requires { All (λ s. s.first + row_size form.array ≤ 2 ^ 32) form.joined }
    ensures { OnOk result (RowAdded form place list.old list.new) }
{
    if form.array.is_some() {
        return add_members(alloc, &form, place, list);
    }
    let net = only_net(alloc, form)?;
    list.add(alloc, net, place)
}

/// Adds a net that stands in no row, whose name stands at this place.
pub fn add_net(alloc: Global, net: Net, place: u64, list: &mut NetList) -> Result<(), NoMemory>
    ensures { OnOk result (RowAdded (single_form net) place list.old list.new) }
{
    list.add(alloc, net, place)
}
