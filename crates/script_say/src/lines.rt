//! The lines of a transcript. Each function appends one line. After `NoMemory` some bytes may stand behind those before.
ghost use Rattle.std.specs.Prelude.{◌≡◌, ◌∷◌, [], ◌++◌, codes, OnOk};
ghost use Rattle.std.specs.Fmt.{decimal};
ghost use Rattle.edif_names.specs.Parts.{Grows};
ghost use Rattle.script_spec.specs.Texts.{conflict_words, line, reply_text};

use crate::bytes::{push_bytes, push_numbered};
use edit_spec::Reply;
use netlist_schema::{NoMemory, Object, Shown};
use script_lang::{object_text, reply_text};
use std::alloc::Global;

/// Says that a transaction began on the version of this number: `begin V`.
pub fn say_begin(version: u64, out: &mut Vec<u8>) -> Result<(), NoMemory>
    ensures ok { OnOk result (out.new.items ≡ out.old.items ++ line (codes "begin" ∷ decimal version ∷ [])) }
    ensures grows { Grows out.old.items out.new.items }
{
    push_numbered(b"begin", version, out)
}

/// Says the reply to an operation.
pub fn say_reply(alloc: Global, reply: &Reply, out: &mut Vec<u8>) -> Result<(), NoMemory>
    ensures ok { OnOk result (out.new.items ≡ out.old.items ++ line (reply_text reply.now ∷ [])) }
    ensures grows { Grows out.old.items out.new.items }
{
    reply_text(alloc, reply, out)?;
    push_bytes(b"\n", out)
}

/// Says that a commit made the version of this number: `committed V`.
pub fn say_committed(version: u64, out: &mut Vec<u8>) -> Result<(), NoMemory>
    ensures ok { OnOk result (out.new.items ≡ out.old.items ++ line (codes "committed" ∷ decimal version ∷ [])) }
    ensures grows { Grows out.old.items out.new.items }
{
    push_numbered(b"committed", version, out)
}

/// Says that a commit was refused, since the commit that made the version of this number wrote the object, whose names stand in
/// the design: `conflict OBJECT version V`.
pub fn say_conflict<S: Shown>(
    alloc: Global,
    design: &S,
    object: Object,
    version: u64,
    out: &mut Vec<u8>,
) -> Result<(), NoMemory>
    ensures ok { OnOk result (out.new.items ≡ out.old.items ++ line (conflict_words (S.design design.now) object version)) }
    ensures grows { Grows out.old.items out.new.items }
{
    push_bytes(b"conflict ", out)?;
    object_text(alloc, design, &object, out)?;
    push_numbered(b" version", version, out)
}

/// Says that a transaction was abandoned: `abandoned`.
pub fn say_abandoned(out: &mut Vec<u8>) -> Result<(), NoMemory>
    ensures ok { OnOk result (out.new.items ≡ out.old.items ++ line (codes "abandoned" ∷ [])) }
    ensures grows { Grows out.old.items out.new.items }
{
    push_bytes(b"abandoned\n", out)
}

/// Says that the version of this number was pinned: `pin V`.
pub fn say_pin(version: u64, out: &mut Vec<u8>) -> Result<(), NoMemory>
    ensures ok { OnOk result (out.new.items ≡ out.old.items ++ line (codes "pin" ∷ decimal version ∷ [])) }
    ensures grows { Grows out.old.items out.new.items }
{
    push_numbered(b"pin", version, out)
}

/// Says that the wanted version passes the last one, which has this number: `no-version V`.
pub fn say_no_version(last: u64, out: &mut Vec<u8>) -> Result<(), NoMemory>
    ensures ok { OnOk result (out.new.items ≡ out.old.items ++ line (codes "no-version" ∷ decimal last ∷ [])) }
    ensures grows { Grows out.old.items out.new.items }
{
    push_numbered(b"no-version", last, out)
}

/// Says that the wanted version is kept no longer, and the least one that is has this number: `gone V`.
pub fn say_gone(least: u64, out: &mut Vec<u8>) -> Result<(), NoMemory>
    ensures ok { OnOk result (out.new.items ≡ out.old.items ++ line (codes "gone" ∷ decimal least ∷ [])) }
    ensures grows { Grows out.old.items out.new.items }
{
    push_numbered(b"gone", least, out)
}

/// Says that a pin was released: `released`.
pub fn say_released(out: &mut Vec<u8>) -> Result<(), NoMemory>
    ensures ok { OnOk result (out.new.items ≡ out.old.items ++ line (codes "released" ∷ [])) }
    ensures grows { Grows out.old.items out.new.items }
{
    push_bytes(b"released\n", out)
}

/// Says that no pin is held, since the one that was wanted was refused: `no-pin`.
pub fn say_no_pin(out: &mut Vec<u8>) -> Result<(), NoMemory>
    ensures ok { OnOk result (out.new.items ≡ out.old.items ++ line (codes "no-pin" ∷ [])) }
    ensures grows { Grows out.old.items out.new.items }
{
    push_bytes(b"no-pin\n", out)
}

/// Says how many versions were dropped: `collected N`.
pub fn say_collected(count: u32, out: &mut Vec<u8>) -> Result<(), NoMemory>
    ensures ok { OnOk result (out.new.items ≡ out.old.items ++ line (codes "collected" ∷ decimal count ∷ [])) }
    ensures grows { Grows out.old.items out.new.items }
{
    push_numbered(b"collected", u64::from(count), out)
}

/// Says that the log was full for a call: `log-full`, the last line.
pub fn say_log_full(out: &mut Vec<u8>) -> Result<(), NoMemory>
    ensures ok { OnOk result (out.new.items ≡ out.old.items ++ line (codes "log-full" ∷ [])) }
    ensures grows { Grows out.old.items out.new.items }
{
    push_bytes(b"log-full\n", out)
}
