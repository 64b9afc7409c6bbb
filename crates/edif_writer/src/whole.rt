//! Whole designs.
ghost use Rattle.std.specs.Prelude.{◌≤◌, OnErr, OnOk, IsErrOf};
ghost use Rattle.edif_spec.specs.Arranged.{canonical_text};
ghost use Rattle.netdb_outside.specs.Buffered.{Writes};
ghost use Rattle.netdb_outside.specs.declared.write_error.WriteError.TheVariants.{WriteFault};
ghost use Rattle.netdb_outside.specs.Outside.{Appends, AppendsFront, Rose};

use crate::library::write_library_lines;
use crate::small::write_name;
use crate::top::write_top_line;
use netdb_outside::{BufferedSink, Sink, WriteError};
use netlist_schema::Shown;
use std::alloc::Global;

/// Writes the canonical text of a design, in pieces of some kilobytes: the cells of each library in arranged order, in which
/// each comes after those that it places. Memory is wanted for a piece and for the order of a library, and never for the
/// whole text.
///
/// After an error a front of the text was written, and no more. `WriteFault` comes only where the sink had a fault.
pub fn write_design<S: Shown, K: Sink>(
    alloc: Global,
    design: &S,
    out: &mut K,
) -> Result<(), WriteError>
    ensures ok { OnOk result (Appends (K.written out.old) (K.written out.new) (canonical_text (S.design design.now))) }
    ensures err { OnErr result (AppendsFront (K.written out.old) (K.written out.new) (canonical_text (S.design design.now))) }
    ensures fault { IsErrOf result WriteFault → Rose (K.faults out.old) (K.faults out.new) }
    ensures never_falls { K.faults out.old ≤ K.faults out.new }
{
    let mut page = BufferedSink::new(alloc);
    write_file(alloc, design, &mut page, out);
    page.finish(out)
}

/// Writes the text of a design, with its cells in arranged order.
fn write_file<S: Shown, K: Sink>(alloc: Global, design: &S, page: &mut BufferedSink, out: &mut K)
    ensures { Writes K.written K.faults out.old page.old out.new page.new (canonical_text (S.design design.now)) }
{
    page.put(b"(edif ", out);
    write_name(alloc, design.title(), page, out);
    page.put(
        b"\n (edifVersion 2 0 0)\n (edifLevel 0)\n (keywordMap (keywordLevel 0))",
        out,
    );
    write_library_lines(alloc, design, page, out);
    write_top_line(alloc, design, page, out);
    page.put(b")\n", out);
}
