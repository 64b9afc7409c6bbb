//! The line of a finding.
ghost use Rattle.std.specs.Prelude.{◌≡◌, ◌++◌, IfOk, OnErr, OnOk};
ghost use Rattle.erc_spec.specs.Lines.{finding_line, finding_words};
ghost use Rattle.flat_lines_spec.specs.Lines.{spaced};

use crate::words::{push_net, push_number, push_pin};
use erc_spec::Finding;
use flat_spec::NetAt;
use netlist_schema::{NoMemory, Shown};
use std::alloc::Global;

/// Appends the line of a finding, with the line feed at its end: `undriven PATH NET`; `many PATH NET` and the number of pins; `open PATH
/// PORT BIT`. A path is `/` for the top, else `/` before each instance's identifier; where the design has nothing of that number,
/// nothing stands for its name. After `NoMemory` the bytes are as before.
pub fn finding_text<S: Shown>(
    alloc: Global,
    design: &S,
    finding: &Finding,
    out: &mut Vec<u8>,
) -> Result<(), NoMemory>
    ensures ok { OnOk result (out.new.items ≡ out.old.items ++ finding_line (S.design design.now) finding.now) }
    ensures err { OnErr result (out.new.items ≡ out.old.items) }
{
    let line = line_of(alloc, design, finding)?;
    out.extend_from_slice(&line)?;
    Ok(())
}

/// The line of a finding.
fn line_of<S: Shown>(alloc: Global, design: &S, finding: &Finding) -> Result<Vec<u8>, NoMemory>
    ensures { IfOk result (λ line. line.items ≡ finding_line (S.design design.now) finding.now) }
{
    let mut line = Vec::new(alloc);
    push_finding(alloc, design, finding, &mut line)?;
    line.push(b'\n')?;
    Ok(line)
}

/// Appends the words of a finding.
fn push_finding<S: Shown>(
    alloc: Global,
    design: &S,
    finding: &Finding,
    out: &mut Vec<u8>,
) -> Result<(), NoMemory>
    ensures { OnOk result (out.new.items ≡ out.old.items ++ spaced (finding_words (S.design design.now) finding.now)) }
{
    match finding {
        Finding::Undriven { at } => push_undriven(alloc, design, at, out),
        Finding::Many { at, strong } => push_many(alloc, design, at, *strong, out),
        Finding::Open { path, port, bit } => {
            out.extend_from_slice(b"open")?;
            push_pin(alloc, design, path, *port, *bit, out)
        }
    }
}

/// Appends the words of a net that no pin drives.
fn push_undriven<S: Shown>(
    alloc: Global,
    design: &S,
    at: &NetAt,
    out: &mut Vec<u8>,
) -> Result<(), NoMemory>
    ensures { OnOk result (out.new.items ≡ out.old.items ++ spaced (finding_words (S.design design.now) (Finding.Undriven at.now))) }
{
    out.extend_from_slice(b"undriven")?;
    push_net(alloc, design, at, out)
}

/// Appends the words of a net that several pins drive.
fn push_many<S: Shown>(
    alloc: Global,
    design: &S,
    at: &NetAt,
    strong: u64,
    out: &mut Vec<u8>,
) -> Result<(), NoMemory>
    ensures { OnOk result (out.new.items ≡ out.old.items ++ spaced (finding_words (S.design design.now) (Finding.Many at.now strong))) }
{
    out.extend_from_slice(b"many")?;
    push_net(alloc, design, at, out)?;
    push_number(strong, out)
}
