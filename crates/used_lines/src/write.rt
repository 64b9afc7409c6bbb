//! The lines of the uses of a design.
ghost use Rattle.std.specs.Prelude.{◌≡◌, ◌≤◌, OnErr, OnOk, IsErrOf};
ghost use Rattle.netdb_outside.specs.declared.write_error.WriteError.TheVariants.{WriteFault};
ghost use Rattle.netdb_outside.specs.Outside.{Appends, AppendsFront, Rose};
ghost use Rattle.used_spec.specs.Lines.{uses_text};
ghost use Rattle.used_spec.specs.Uses.{uses};

use crate::lines::put_cells;
use netdb_outside::{BufferedSink, Sink, WriteError};
use netlist_schema::Shown;
use std::alloc::Global;
use where_used::Used;

/// Writes the uses of a design, of which this is the index: the line `uses`, and for each cell in order the line `cell LIB CELL uses N`
/// and N lines ` use LIB CELL INST`. Memory is wanted for a piece of some kilobytes.
///
/// After an error a front of that text was written, and no more. `WriteFault` comes only where the sink had a fault.
pub fn write_uses<S: Shown, K: Sink>(
    alloc: Global,
    design: &S,
    used: &Used,
    out: &mut K,
) -> Result<(), WriteError>
    requires { used.now ≡ uses (S.design design.now) }
    ensures ok { OnOk result (Appends (K.written out.old) (K.written out.new) (uses_text (S.design design.now))) }
    ensures err { OnErr result (AppendsFront (K.written out.old) (K.written out.new) (uses_text (S.design design.now))) }
    ensures fault { IsErrOf result WriteFault → Rose (K.faults out.old) (K.faults out.new) }
    ensures never_falls { K.faults out.old ≤ K.faults out.new }
{
    let mut page = BufferedSink::new(alloc);
    page.put(b"uses\n", out);
    put_cells(design, used, &mut page, out);
    page.finish(out)
}
