//! The words of a line.
ghost use Rattle.std.specs.Prelude.{◌≡◌, ◌++◌, ◌∷◌, [], codes, OnOk};
ghost use Rattle.std.specs.Fmt.{decimal};
ghost use Rattle.flat_lines_spec.specs.Lines.{net_words, path_text, port_text};
ghost use Rattle.erc_report.specs.Parts.{behind_blanks};

use csv_report::{net_name, path_bytes, port_name};
use flat_items::NetRef;
use flat_spec::{NetAt, Path};
use itoa::Buffer;
use netlist_schema::{NoMemory, Shown};
use std::alloc::Global;

/// Appends a blank and a word.
fn push_word(word: &[u8], out: &mut Vec<u8>) -> Result<(), NoMemory>
    ensures { OnOk result (out.new.items ≡ out.old.items ++ (codes " " ++ word.now)) }
{
    out.push(b' ')?;
    out.extend_from_slice(word)?;
    Ok(())
}

/// Appends a blank and a number in decimal digits.
pub fn push_number(number: u64, out: &mut Vec<u8>) -> Result<(), NoMemory>
    ensures { OnOk result (out.new.items ≡ out.old.items ++ (codes " " ++ decimal number)) }
{
    let mut buffer = Buffer::new();
    push_word(buffer.format(number).as_bytes(), out)
}

/// Appends a blank and the path of an occurrence.
fn push_path<S: Shown>(
    alloc: Global,
    design: &S,
    path: &Path,
    out: &mut Vec<u8>,
) -> Result<(), NoMemory>
    ensures { OnOk result (out.new.items ≡ out.old.items ++ (codes " " ++ path_text (S.design design.now) path.now)) }
{
    let text = path_bytes(alloc, design, path.as_slice())?;
    push_word(&text, out)
}

/// Appends the path and the identifier of a net, each behind a blank.
pub fn push_net<S: Shown>(
    alloc: Global,
    design: &S,
    net: &NetAt,
    out: &mut Vec<u8>,
) -> Result<(), NoMemory>
    ensures { OnOk result (out.new.items ≡ out.old.items ++ behind_blanks (net_words (S.design design.now) net.now)) }
{
    push_path(alloc, design, &net.path, out)?;
    push_word(net_name(design, NetRef::of(net)), out)
}

/// Appends the path of an occurrence, the identifier of one of its ports and a bit, each behind a blank.
pub fn push_pin<S: Shown>(
    alloc: Global,
    design: &S,
    path: &Path,
    port: u32,
    bit: u32,
    out: &mut Vec<u8>,
) -> Result<(), NoMemory>
    ensures { OnOk result (out.new.items
        ≡ out.old.items ++ behind_blanks (path_text (S.design design.now) path.now ∷ port_text (S.design design.now) path.now port ∷ decimal bit ∷ [])) }
{
    push_path(alloc, design, path, out)?;
    push_word(port_name(design, path.as_slice(), port), out)?;
    push_number(u64::from(bit), out)
}
