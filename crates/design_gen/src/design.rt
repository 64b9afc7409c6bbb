//! The design.
ghost use Rattle.std.specs.Prelude.{◌≡◌, ◌≤◌, IfOk, true};
ghost use Rattle.netlist_schema.specs.Design.{insts_of, nets_of};
ghost use Rattle.design_gen.specs.Letters.{are_letters};
ghost use Rattle.flat_spec.specs.ExampleParts.{named, own_port, on_port};
ghost use Rattle.gen_spec.specs.Generated.{cell, generated, inverters, left_end, right_end, pair, row, row_nets};
ghost use Rattle.gen_spec.specs.declared.limits.TheConstants.{MOST_SIZE};

use crate::parts::{cell, inst, letters, name, net, numbered};
use netlist_schema::{
    CellBody, CellId, Contents, Design, End, Inst, Lib, LibHead, LibId, Listed, Net, NoMemory,
    Parts, Row, TopHead,
};
use std::alloc::Global;

/// The only bit of a port of the cell itself.
fn own_port(port: u32) -> End
    ensures { result ≡ own_port port }
{
    End {
        inst: None,
        port,
        bit: 0,
    }
}

/// The only bit of a port of an instance.
fn on_port(inst: u32, port: u32) -> End
    ensures { result ≡ on_port inst port }
{
    End {
        inst: Some(inst),
        port,
        bit: 0,
    }
}

/// What a net of the row joins on its left.
fn left_end(number: u32) -> End
    ensures { result ≡ left_end number }
{
    if number == 0 {
        return own_port(0);
    }
    on_port(number - 1, 1)
}

/// What a net of the row joins on its right.
fn right_end(count: u32, number: u32) -> End
    ensures { result ≡ right_end count number }
{
    if number == count {
        return own_port(1);
    }
    on_port(number, 0)
}

/// The inverters of the row.
fn inverters(alloc: Global, count: u32) -> Result<Vec<Listed<Inst>>, NoMemory>
    ensures { IfOk result (λ made. made.items ≡ inverters count) }
{
    let mut made = Vec::new(alloc);
    for number in 0..count {
        let id = numbered(alloc, b'i', number)?;
        made.push(Listed::of(alloc, inst(alloc, id, 0))?)?;
    }
    Ok(made)
}

/// The nets of the row.
fn row_nets(alloc: Global, count: u32) -> Result<Vec<Listed<Net>>, NoMemory>
    requires { count ≤ MOST_SIZE }
    ensures { IfOk result (λ made. made.items ≡ row_nets count) }
{
    let mut made = Vec::new(alloc);
    for number in 0..count + 1 {
        let id = numbered(alloc, b'n', number)?;
        let net = net(alloc, id, left_end(number), right_end(count, number))?;
        made.push(Listed::of(alloc, net)?)?;
    }
    Ok(made)
}

/// The row of inverters.
fn row(alloc: Global, count: u32) -> Result<CellBody, NoMemory>
    requires { count ≤ MOST_SIZE }
    ensures { IfOk result (λ made. made ≡ row count) }
{
    let insts = Parts::of(alloc, inverters(alloc, count)?)?;
    let nets = Parts::of(alloc, row_nets(alloc, count)?)?;
    cell(alloc, b"row", Some(Contents { insts, nets }))
}

/// The two rows in the pair.
fn pair_insts(alloc: Global) -> Result<Parts<Listed<Inst>>, NoMemory>
    ensures { IfOk result (λ made. made ≡ insts_of pair) }
{
    let first = letters(alloc, b"r0")?;
    let second = letters(alloc, b"r1")?;
    let mut made = Vec::new(alloc);
    made.push(Listed::of(alloc, inst(alloc, first, 1))?)?;
    made.push(Listed::of(alloc, inst(alloc, second, 1))?)?;
    let insts = Parts::of(alloc, made)?;
    Ok(insts)
}

/// The nets of the pair.
fn pair_nets(alloc: Global) -> Result<Parts<Listed<Net>>, NoMemory>
    ensures { IfOk result (λ made. made ≡ nets_of pair) }
{
    let a = letters(alloc, b"a")?;
    let m = letters(alloc, b"m")?;
    let y = letters(alloc, b"y")?;
    let mut made = Vec::new(alloc);
    made.push(Listed::of(alloc, net(alloc, a, own_port(0), on_port(0, 0))?)?)?;
    made.push(Listed::of(alloc, net(alloc, m, on_port(0, 1), on_port(1, 0))?)?)?;
    made.push(Listed::of(alloc, net(alloc, y, on_port(1, 1), own_port(1))?)?)?;
    let nets = Parts::of(alloc, made)?;
    Ok(nets)
}

/// The top: a row behind a row.
fn pair(alloc: Global) -> Result<CellBody, NoMemory>
    ensures { IfOk result (λ made. made ≡ pair) }
{
    let insts = pair_insts(alloc)?;
    let nets = pair_nets(alloc)?;
    cell(alloc, b"top", Some(Contents { insts, nets }))
}

/// A library.
fn lib(alloc: Global, bytes: &[u8], external: bool, cells: Vec<CellBody>) -> Result<Lib, NoMemory>
    requires { are_letters bytes.now ≡ true }
    ensures { IfOk result (λ made. made ≡ record { head = record { name = named bytes.now; external = external }; cells = cells.items }) }
{
    let name = name(alloc, bytes)?;
    Ok(Lib {
        head: LibHead { name, external },
        cells: Row::of(cells),
    })
}

/// The libraries.
fn libs(alloc: Global, count: u32) -> Result<Row<Lib>, NoMemory>
    requires { count ≤ MOST_SIZE }
    ensures { IfOk result (λ made. made ≡ (generated count).libs) }
{
    let mut prims = Vec::new(alloc);
    prims.push(cell(alloc, b"INV", None)?)?;
    let mut work = Vec::new(alloc);
    work.push(row(alloc, count)?)?;
    work.push(pair(alloc)?)?;
    let mut made = Vec::new(alloc);
    made.push(lib(alloc, b"prims", true, prims)?)?;
    made.push(lib(alloc, b"work", false, work)?)?;
    Ok(Row::of(made))
}

/// The design of this number: a row of so many inverters, and the row placed twice, the one behind the other. `count` is from 1 to
/// 4,096.
pub fn gen_design(alloc: Global, count: u32) -> Result<Design, NoMemory>
    requires { (1 ≤ count) × (count ≤ MOST_SIZE) }
    ensures { IfOk result (λ design. design ≡ generated count) }
{
    let title = name(alloc, b"gen")?;
    let libs = libs(alloc, count)?;
    let top = TopHead {
        name: name(alloc, b"gen")?,
        cell: CellId {
            lib: LibId(1),
            slot: 1,
        },
        properties: Row::of(Vec::new(alloc)),
    };
    Ok(Design::of(title, libs, Some(top), Row::of(Vec::new(alloc))))
}
