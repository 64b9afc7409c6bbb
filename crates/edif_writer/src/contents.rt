//! Contents: instances, and nets with their ends.
ghost use Rattle.std.specs.Prelude.{◌≡◌, ◌∷◌, ◌++◌, ◌<◌, ◌≤◌, ℕ, [], All, IsSome, IfSome, None, Some, length, map, slice_get, unwrap_or};
ghost use Rattle.std.specs.Option.{option_copied};
ghost use Rattle.edif_spec.specs.Canonical.{layout, perhaps, inst_tree, bit_tree, bits_tree, name_tree, port_name_tree, ports_of_end, end_tree, net_tree, contents_tree};
ghost use Rattle.edif_spec.specs.Design as design;
ghost use Rattle.edif_spec.specs.Nets.{form_of, net_forms, run_form, single_form};
ghost use Rattle.netlist_bus_spec.specs.Runs.{array_name, run_width, stem};
ghost use Rattle.netlist_schema.specs.Hierarchy.{IsCell};
ghost use Rattle.edif_writer.specs.Lines.{spaced, lined, instance_ref_tree};
ghost use Rattle.edif_writer.specs.Joined.{stretch_of};
ghost use Rattle.edif_writer.specs.Placed.{HasInstAt, IsAt, IsPlaced};
ghost use Rattle.netdb_outside.specs.Buffered.{Writes};

use crate::reference::{write_cell_ref, write_view_id};
use crate::small::{write_name, write_properties, write_text_form};
use crate::spelled::{put_bytes, put_ident, put_line, put_name, put_number};
use bus_members::{run_from, stem};
use netdb_outside::{BufferedSink, Sink};
use netlist_schema::{
    Contents, Each, End, Inst, Listed, Name, Net, Parts, Port, Row, Shared, Shown, Text,
};
use std::alloc::Global;

/// The level of the instances and nets of contents.
const CONTENTS_LEVEL: usize = 5;

/// The least width of a run.
const LEAST_RUN: u32 = 2;

/// What goes along while the nets of a cell are written: the design, the cell's own ports and its instances.
#[derive(Clone, Copy)]
struct Around<'a, S> {
    design: &'a S,
    own: &'a Row<Port>,
    insts: &'a Parts<Listed<Inst>>,
}

/// Writes an instance.
fn write_inst<S: Shown, K: Sink>(
    alloc: Global,
    design: &S,
    inst: &Inst,
    page: &mut BufferedSink,
    out: &mut K,
)
    requires { IsCell (S.design design.now) inst.now.of }
    ensures { (level : ℕ) → Writes K.written K.faults out.old page.old out.new page.new (layout level (inst_tree (S.design design.now).libs inst.now)) }
{
    page.put(b"(instance ", out);
    write_name(alloc, &inst.name, page, out);
    page.put(b" (viewRef ", out);
    write_view_id(alloc, design, inst.of, page, out);
    page.put(b" ", out);
    write_cell_ref(alloc, design, inst.of, page, out);
    page.put(b")", out);
    write_text_form(alloc, b" (designator ", &inst.designator, page, out);
    write_properties(alloc, inst.properties.as_slice(), page, out);
    page.put(b")", out);
}

/// Writes instances on lines of their own.
fn write_inst_lines<S: Shown, K: Sink>(
    alloc: Global,
    design: &S,
    insts: &Parts<Listed<Inst>>,
    page: &mut BufferedSink,
    out: &mut K,
)
    requires { All (λ inst. IsCell (S.design design.now) inst.of) insts.now }
    ensures { Writes K.written K.faults out.old page.old out.new page.new (lined 5 (map (inst_tree (S.design design.now).libs) insts.now)) }
{
    for inst in insts.iter() {
        put_line(CONTENTS_LEVEL, page, out);
        write_inst(alloc, design, inst, page, out);
    }
}

/// The port of an end: among those of the cell itself, or of an instance's cell.
fn port_of_end<'a, S: Shown>(around: &Around<'a, S>, end: &End) -> Option<&'a Port>
    ensures { option_copied result ≡ slice_get (ports_of_end (S.design around.now.design.now).libs around.now.own.now around.now.insts.now end.now.inst) end.now.port }
{
    let port = end.port as usize;
    match end.inst {
        None => around.own.as_slice().get(port),
        Some(place) => {
            let Some(inst) = around.insts.get(place as usize) else {
                return None;
            };
            let Some(of) = around.design.cell(inst.of) else {
                return None;
            };
            of.ports.as_slice().get(port)
        }
    }
}

/// Writes a bit of a port: a scalar port's by the port, an array's as a member.
fn write_bit<K: Sink>(alloc: Global, port: &Port, bit: u32, page: &mut BufferedSink, out: &mut K)
    ensures { (level : ℕ) → Writes K.written K.faults out.old page.old out.new page.new (layout level (bit_tree port.now.name.id port.now.array bit)) }
{
    match port.array {
        None => put_ident(alloc, &port.name.id, page, out),
        Some(_) => {
            page.put(b"(member ", out);
            put_ident(alloc, &port.name.id, page, out);
            page.put(b" ", out);
            put_number(alloc, bit, page, out);
            page.put(b")", out);
        }
    }
}

/// Writes what a net joins of a port: all of it, by its name, where the net has an array, and a bit where it has none.
fn write_bits<K: Sink>(
    alloc: Global,
    port: &Port,
    array: Option<u32>,
    bit: u32,
    page: &mut BufferedSink,
    out: &mut K,
)
    ensures { (level : ℕ) → Writes K.written K.faults out.old page.old out.new page.new (layout level (bits_tree array (Some port.now) bit)) }
{
    match array {
        None => write_bit(alloc, port, bit, page, out),
        Some(_) => put_ident(alloc, &port.name.id, page, out),
    }
}

/// Writes what a net joins of the port of an end: all of it where the net has an array, and the bit of the end where it has none.
fn write_port_of_end<S: Shown, K: Sink>(
    alloc: Global,
    around: &Around<'_, S>,
    array: Option<u32>,
    end: &End,
    page: &mut BufferedSink,
    out: &mut K,
)
    requires { IsAt (S.design around.now.design.now) around.now.own.now around.now.insts.now end.now }
    ensures { (level : ℕ) → Writes K.written K.faults out.old page.old out.new page.new
        (layout level (bits_tree array (slice_get (ports_of_end (S.design around.now.design.now).libs around.now.own.now around.now.insts.now end.now.inst) end.now.port) end.now.bit)) }
{
    if let Some(port) = port_of_end(around, end) {
        write_bits(alloc, port, array, end.bit, page, out);
    }
}

/// Writes a reference to an instance behind a blank, and ends the form of the end that is at it.
fn write_inst_ref<K: Sink>(
    alloc: Global,
    insts: &Parts<Listed<Inst>>,
    place: u32,
    page: &mut BufferedSink,
    out: &mut K,
)
    requires { IsSome (slice_get insts.now place) }
    ensures { (level : ℕ) → Writes K.written K.faults out.old page.old out.new page.new ((32 ∷ layout level (instance_ref_tree insts.now place)) ++ 41 ∷ []) }
{
    if let Some(inst) = insts.get(place as usize) {
        page.put(b" (instanceRef ", out);
        put_ident(alloc, &inst.name.id, page, out);
        page.put(b"))", out);
    }
}

/// Writes a reference to the instance of an end behind a blank, where the end is at one, and ends its form.
fn write_end_inst<K: Sink>(
    alloc: Global,
    insts: &Parts<Listed<Inst>>,
    place: Option<u32>,
    page: &mut BufferedSink,
    out: &mut K,
)
    requires { HasInstAt insts.now place }
    ensures { (level : ℕ) → Writes K.written K.faults out.old page.old out.new page.new (spaced level (perhaps (instance_ref_tree insts.now) place) ++ 41 ∷ []) }
{
    match place {
        Some(place) => write_inst_ref(alloc, insts, place, page, out),
        None => page.put(b")", out),
    }
}

/// Writes an end of a net with an array of this width, or with none, behind a blank.
fn write_end<S: Shown, K: Sink>(
    alloc: Global,
    around: &Around<'_, S>,
    array: Option<u32>,
    end: &End,
    page: &mut BufferedSink,
    out: &mut K,
)
    requires { IsAt (S.design around.now.design.now) around.now.own.now around.now.insts.now end.now }
    ensures { (level : ℕ) → Writes K.written K.faults out.old page.old out.new page.new
        (32 ∷ layout level (end_tree (S.design around.now.design.now).libs around.now.own.now around.now.insts.now array (stretch_of array end.now))) }
{
    page.put(b" (portRef ", out);
    write_port_of_end(alloc, around, array, end, page, out);
    write_end_inst(alloc, around.insts, end.inst, page, out);
}

/// Writes the ends of a net with an array of this width, or with none, on its line.
fn write_ends<S: Shown, K: Sink>(
    alloc: Global,
    around: &Around<'_, S>,
    array: Option<u32>,
    ends: &Row<End>,
    page: &mut BufferedSink,
    out: &mut K,
)
    requires { All (IsAt (S.design around.now.design.now) around.now.own.now around.now.insts.now) ends.now }
    ensures { (level : ℕ) → Writes K.written K.faults out.old page.old out.new page.new
        (spaced level (map (end_tree (S.design around.now.design.now).libs around.now.own.now around.now.insts.now array) (map (stretch_of array) ends.now))) }
{
    for end in ends.as_slice() {
        write_end(alloc, around, array, end, page, out);
    }
}

/// Writes a net by itself.
fn write_net<S: Shown, K: Sink>(
    alloc: Global,
    around: &Around<'_, S>,
    net: &Net,
    page: &mut BufferedSink,
    out: &mut K,
)
    requires { All (IsAt (S.design around.now.design.now) around.now.own.now around.now.insts.now) net.now.ends }
    ensures { (level : ℕ) → Writes K.written K.faults out.old page.old out.new page.new (layout level (net_tree (S.design around.now.design.now).libs around.now.own.now around.now.insts.now (single_form net.now))) }
{
    page.put(b"(net ", out);
    write_name(alloc, &net.name, page, out);
    page.put(b" (joined", out);
    write_ends(alloc, around, None, &net.ends, page, out);
    page.put(b")", out);
    write_properties(alloc, net.properties.as_slice(), page, out);
    page.put(b")", out);
}

/// What is shown of the name of an array, by that of its first net: the shown text without its last three bytes.
fn shown_stem(shown: &Option<Text>) -> &[u8]
    ensures { result.now ≡ stem (unwrap_or shown.now []) }
{
    match shown {
        Some(text) => stem(text.as_slice()),
        None => &[],
    }
}

/// Writes the name of an array: its identifier, renamed where the text is another.
fn write_array_name<K: Sink>(
    alloc: Global,
    id: &[u8],
    text: &[u8],
    page: &mut BufferedSink,
    out: &mut K,
)
    ensures { (level : ℕ) → Writes K.written K.faults out.old page.old out.new page.new (layout level (name_tree (array_name id.now text.now))) }
{
    if id == text {
        put_name(id, page, out);
    } else {
        page.put(b"(rename ", out);
        put_name(id, page, out);
        page.put(b" ", out);
        put_bytes(alloc, text, page, out);
        page.put(b")", out);
    }
}

/// Writes the array of a run of this width, by the name of its first net.
fn write_array<K: Sink>(
    alloc: Global,
    name: &Name,
    width: u32,
    page: &mut BufferedSink,
    out: &mut K,
)
    ensures { (level : ℕ) → Writes K.written K.faults out.old page.old out.new page.new
        (layout level (port_name_tree (array_name (stem name.now.id) (stem (unwrap_or name.now.shown []))) (Some width))) }
{
    page.put(b"(array ", out);
    write_array_name(
        alloc,
        stem(name.id.as_slice()),
        shown_stem(&name.shown),
        page,
        out,
    );
    page.put(b" ", out);
    put_number(alloc, width, page, out);
    page.put(b")", out);
}

/// Writes a run of this width, by its first net.
fn write_run<S: Shown, K: Sink>(
    alloc: Global,
    around: &Around<'_, S>,
    net: &Net,
    width: u32,
    page: &mut BufferedSink,
    out: &mut K,
)
    requires { All (IsAt (S.design around.now.design.now) around.now.own.now around.now.insts.now) net.now.ends }
    ensures { (level : ℕ) → Writes K.written K.faults out.old page.old out.new page.new (layout level (net_tree (S.design around.now.design.now).libs around.now.own.now around.now.insts.now (run_form width net.now))) }
{
    page.put(b"(net ", out);
    write_array(alloc, &net.name, width, page, out);
    page.put(b" (joined", out);
    write_ends(alloc, around, Some(width), &net.ends, page, out);
    page.put(b")", out);
    write_properties(alloc, net.properties.as_slice(), page, out);
    page.put(b")", out);
}

/// Writes the form of a net at which the greatest run has this width: the run, or the net by itself.
fn write_form<S: Shown, K: Sink>(
    alloc: Global,
    around: &Around<'_, S>,
    net: &Net,
    width: u32,
    page: &mut BufferedSink,
    out: &mut K,
)
    requires { All (IsAt (S.design around.now.design.now) around.now.own.now around.now.insts.now) net.now.ends }
    ensures { (level : ℕ) → Writes K.written K.faults out.old page.old out.new page.new (layout level (net_tree (S.design around.now.design.now).libs around.now.own.now around.now.insts.now (form_of width net.now))) }
{
    if width < LEAST_RUN {
        write_net(alloc, around, net, page, out);
    } else {
        write_run(alloc, around, net, width, page, out);
    }
}

/// The width of the greatest run that begins with the first of these nets: 1 where none does.
fn width_from<S: Shown>(around: &Around<'_, S>, nets: &Each<'_, Listed<Net>>) -> u32
    requires { 0 < length nets.now }
    ensures width { result ≡ run_width (ports_of_end (S.design around.now.design.now).libs around.now.own.now around.now.insts.now) nets.now }
    ensures least { 1 ≤ result }
    ensures most { result ≤ length nets.now }
{
    run_from(
        around.design,
        around.own.as_slice(),
        &around.insts.lent(),
        nets,
    )
}

/// Writes nets on lines of their own, each greatest run as one net with an array.
fn write_net_lines<S: Shown, K: Sink>(
    alloc: Global,
    design: &S,
    own: &Row<Port>,
    contents: &Contents,
    page: &mut BufferedSink,
    out: &mut K,
)
    requires { IsPlaced (S.design design.now) own.now contents.now }
    ensures { Writes K.written K.faults out.old page.old out.new page.new
        (lined 5 (map (net_tree (S.design design.now).libs own.now contents.now.insts) (net_forms (ports_of_end (S.design design.now).libs own.now contents.now.insts) contents.now.nets))) }
{
    let around = Around {
        design,
        own,
        insts: &contents.insts,
    };
    let mut left = contents.nets.iter();
    while let Some(net) = left.first() {
        let width = width_from(&around, &left);
        put_line(CONTENTS_LEVEL, page, out);
        write_form(alloc, &around, net, width, page, out);
        left = left.behind(width as usize);
    }
}

/// Writes contents on a line of their own, where there are any.
pub(crate) fn write_contents_line<S: Shown, K: Sink>(
    alloc: Global,
    design: &S,
    own: &Row<Port>,
    contents: &Option<Shared<Contents>>,
    page: &mut BufferedSink,
    out: &mut K,
)
    requires { IfSome contents.now (IsPlaced (S.design design.now) own.now) }
    ensures { Writes K.written K.faults out.old page.old out.new page.new (lined 4 (perhaps (contents_tree (S.design design.now).libs own.now) contents.now)) }
{
    if let Some(contents) = contents {
        page.put(b"\n    (contents", out);
        write_inst_lines(alloc, design, &contents.insts, page, out);
        write_net_lines(alloc, design, own, contents, page, out);
        page.put(b")", out);
    }
}
