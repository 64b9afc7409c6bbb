//! The texts of a version, on their way to a sink. Each is made a piece at a time: none is wanted whole in memory.
ghost use Rattle.std.specs.Prelude.{◌≡◌, ◌↔◌, ◌≤◌, Err, IsErrOf, None, OnErr, OnOk};
ghost use Rattle.edif_spec.specs.Arranged.{canonical_text};
ghost use Rattle.erc_spec.specs.Lines.{findings_text};
ghost use Rattle.flat_csv_spec.specs.PinTable.{pin_table};
ghost use Rattle.flat_lines_spec.specs.Lines.{flattening_text};
ghost use Rattle.netdb_outside.specs.Outside.{Appends, AppendsFront, Rose};
ghost use Rattle.netdb_outside.specs.declared.write_error.WriteError.TheVariants.{WriteFault};
ghost use Rattle.used_spec.specs.Lines.{uses_text};

use crate::view::View;
use edif_writer::write_design;
use erc_report::write_findings;
use flat_writer::{FlatError, write_flat, write_pin_table};
use netdb_outside::{Sink, WriteError};
use used_lines::write_uses;
use where_used::Used;

impl View {
    /// Writes the canonical text of the version. After an error a front of it was written. `WriteFault` comes only where the sink had a
    /// fault.
    pub fn write<K: Sink>(&self, out: &mut K) -> Result<(), WriteError>
        ensures ok { OnOk result (Appends (K.written out.old) (K.written out.new) (canonical_text self.now.version.design)) }
        ensures err { OnErr result (AppendsFront (K.written out.old) (K.written out.new) (canonical_text self.now.version.design)) }
        ensures fault { IsErrOf result WriteFault → Rose (K.faults out.old) (K.faults out.new) }
        ensures never_falls { K.faults out.old ≤ K.faults out.new }
    {
        let version = self.version();
        write_design(self.alloc(), version, out)
    }

    /// Writes the lines of the flattening, of at most so many items where there is a limit, and `end` or `more`. `NoTop` comes exactly
    /// where the design has no top, and then the sink is as it was; else as of `write`.
    pub fn flat<K: Sink>(&self, limit: Option<u64>, out: &mut K) -> Result<(), FlatError>
        ensures no_top { (result ≡ Err FlatError.NoTop) ↔ (self.now.version.design.top ≡ None) }
        ensures untouched { result ≡ Err FlatError.NoTop → out.new ≡ out.old }
        ensures ok { OnOk result (Appends (K.written out.old) (K.written out.new) (flattening_text self.now.version.design limit)) }
        ensures err { OnErr result (AppendsFront (K.written out.old) (K.written out.new) (flattening_text self.now.version.design limit)) }
        ensures fault { result ≡ Err FlatError.WriteFault → Rose (K.faults out.old) (K.faults out.new) }
        ensures never_falls { K.faults out.old ≤ K.faults out.new }
    {
        let version = self.version();
        write_flat(self.alloc(), version, limit, out)
    }

    /// Writes the pin table: the names of the columns, and a row for each pin of the flattening. Its errors are those of `flat`.
    pub fn csv<K: Sink>(&self, out: &mut K) -> Result<(), FlatError>
        ensures no_top { (result ≡ Err FlatError.NoTop) ↔ (self.now.version.design.top ≡ None) }
        ensures untouched { result ≡ Err FlatError.NoTop → out.new ≡ out.old }
        ensures ok { OnOk result (Appends (K.written out.old) (K.written out.new) (pin_table self.now.version.design)) }
        ensures err { OnErr result (AppendsFront (K.written out.old) (K.written out.new) (pin_table self.now.version.design)) }
        ensures fault { result ≡ Err FlatError.WriteFault → Rose (K.faults out.old) (K.faults out.new) }
        ensures never_falls { K.faults out.old ≤ K.faults out.new }
    {
        let version = self.version();
        write_pin_table(self.alloc(), version, out)
    }

    /// Writes the lines of what an electrical check finds, and `end`. Its errors are those of `flat`.
    pub fn erc<K: Sink>(&self, out: &mut K) -> Result<(), FlatError>
        ensures no_top { (result ≡ Err FlatError.NoTop) ↔ (self.now.version.design.top ≡ None) }
        ensures untouched { result ≡ Err FlatError.NoTop → out.new ≡ out.old }
        ensures ok { OnOk result (Appends (K.written out.old) (K.written out.new) (findings_text self.now.version.design)) }
        ensures err { OnErr result (AppendsFront (K.written out.old) (K.written out.new) (findings_text self.now.version.design)) }
        ensures fault { result ≡ Err FlatError.WriteFault → Rose (K.faults out.old) (K.faults out.new) }
        ensures never_falls { K.faults out.old ≤ K.faults out.new }
    {
        let version = self.version();
        write_findings(self.alloc(), version, out)
    }

    /// Writes the uses of each cell: the line `uses`, and for each cell its line and those of its uses. Its errors are those of `write`.
    #[tactic(auto, using(netdb_outside::proofs::Appending::front_none))]
    pub fn uses<K: Sink>(&self, out: &mut K) -> Result<(), WriteError>
        ensures ok { OnOk result (Appends (K.written out.old) (K.written out.new) (uses_text self.now.version.design)) }
        ensures err { OnErr result (AppendsFront (K.written out.old) (K.written out.new) (uses_text self.now.version.design)) }
        ensures fault { IsErrOf result WriteFault → Rose (K.faults out.old) (K.faults out.new) }
        ensures never_falls { K.faults out.old ≤ K.faults out.new }
    {
        let version = self.version();
        let Ok(used) = Used::of(self.alloc(), version) else {
            return Err(WriteError::NoMemory);
        };
        write_uses(self.alloc(), version, &used, out)
    }
}
