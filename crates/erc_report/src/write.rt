//! All findings of a design.
ghost use Rattle.std.specs.Prelude.{◌≡◌, ◌↔◌, ◌≤◌, Err, None, OnErr, OnOk};
ghost use Rattle.netdb_outside.specs.Buffered.{Writes};
ghost use Rattle.netdb_outside.specs.Outside.{Appends, AppendsFront, Rose};
ghost use Rattle.erc_spec.specs.Lines.{finding_line, finding_lines, findings_text, found_text};

use crate::lines::finding_text;
use erc_check::erc_check;
use erc_spec::Finding;
use flat_writer::{FlatError, outcome};
use netdb_outside::{Appended, BufferedSink, Sink, WriteError};
use netlist_schema::{NoMemory, Shown};
use occ_walk::WalkError;
use std::alloc::Global;

/// A finding in a design.
#[derive(Drop)]
struct Line<'a, S: Shown> {
    design: &'a S,
    finding: &'a Finding,
}

impl<'a, S: Shown> Appended for Line<'a, S> {
    ghost text = { λ line. finding_line (S.design line.design.now) line.finding.now };

    fn append_to(&self, alloc: Global, bytes: &mut Vec<u8>) -> Result<(), NoMemory> {
        finding_text(alloc, self.design, self.finding, bytes)
    }
}

/// Writes the lines of all that an electrical check finds in a design, and behind them `end`. Nothing is written before all is found:
/// memory is wanted as the check wants it, and for a piece of some kilobytes.
///
/// `NoTop` comes exactly where the design has no top, and then the sink is as it was. After another error a front of that text was written.
/// `WriteFault` comes only where the sink had a fault.
pub fn write_findings<S: Shown, K: Sink>(
    alloc: Global,
    design: &S,
    out: &mut K,
) -> Result<(), FlatError>
    ensures no_top { (result ≡ Err FlatError.NoTop) ↔ ((S.design design.now).top ≡ None) }
    ensures untouched { result ≡ Err FlatError.NoTop → out.new ≡ out.old }
    ensures ok { OnOk result (Appends (K.written out.old) (K.written out.new) (findings_text (S.design design.now))) }
    ensures err { OnErr result (AppendsFront (K.written out.old) (K.written out.new) (findings_text (S.design design.now))) }
    ensures fault { result ≡ Err FlatError.WriteFault → Rose (K.faults out.old) (K.faults out.new) }
    ensures never_falls { K.faults out.old ≤ K.faults out.new }
{
    match erc_check(alloc, design) {
        Ok(found) => outcome(write_found(alloc, design, found.as_slice(), out)),
        Err(WalkError::NoTop) => Err(FlatError::NoTop),
        Err(WalkError::NoMemory) => Err(FlatError::NoMemory),
    }
}

/// Writes the lines of findings, and `end` behind them.
fn write_found<S: Shown, K: Sink>(
    alloc: Global,
    design: &S,
    found: &[Finding],
    out: &mut K,
) -> Result<(), WriteError>
    ensures ok { OnOk result (Appends (K.written out.old) (K.written out.new) (found_text (S.design design.now) found.now)) }
    ensures err { OnErr result (AppendsFront (K.written out.old) (K.written out.new) (found_text (S.design design.now) found.now)) }
    ensures fault { result ≡ Err WriteError.WriteFault → Rose (K.faults out.old) (K.faults out.new) }
    ensures never_falls { K.faults out.old ≤ K.faults out.new }
{
    let mut page = BufferedSink::new(alloc);
    put_lines(alloc, design, found, &mut page, out);
    page.put(b"end\n", out);
    page.finish(out)
}

/// Writes the lines of findings.
fn put_lines<S: Shown, K: Sink>(
    alloc: Global,
    design: &S,
    found: &[Finding],
    page: &mut BufferedSink,
    out: &mut K,
)
    ensures { Writes K.written K.faults out.old page.old out.new page.new (finding_lines (S.design design.now) found.now) }
{
    for finding in found {
        page.put_text(alloc, &Line { design, finding }, out);
    }
}
