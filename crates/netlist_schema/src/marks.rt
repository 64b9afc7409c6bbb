//! What instances and nets are looked for by.
ghost use Rattle.std.specs.Prelude.{◌≡◌, ◌%◌, ◌^◌};
ghost use Rattle.netlist_schema.specs.Marks.{end_bits, end_place, hash_of, inst_mark, last_inst, net_mark};

use crate::cell::{End, Inst, Net};
use crate::ident::Ident;
use crate::listed::{Mark, Marks};

/// A number of 64 bits for a name. Names that are equal when the case of ASCII letters is ignored have one number.
#[tactic(auto, unfolding(crate::specs::Marks::hash_of))]
pub fn hash_of(name: &[u8]) -> u64
    ensures { result ≡ hash_of name.now }
{
    let mut hash: u64 = 0;
    for byte in name {
        let letter = u64::from(byte.to_ascii_lowercase());
        hash = hash.wrapping_mul(1_099_511_628_211).wrapping_add(letter);
    }
    hash
}

/// What the mark of an instance or a net has of its name.
pub fn name_number(name: &Ident) -> u32
    ensures { result ≡ hash_of name.now % 2 ^ 32 }
{
    (hash_of(name.as_slice()) % 4_294_967_296) as u32
}

/// The bit of an end among those of a mark.
pub fn end_bit(end: &End) -> u32
    ensures { result ≡ 2 ^ end_place end.now }
{
    match end.inst {
        Some(inst) => 1u32 << (inst % 32),
        None => 1u32 << 31,
    }
}

/// The greatest number of an instance with one of the ends, or 0.
fn last_inst(ends: &[End]) -> u32
    ensures { result ≡ last_inst 0 ends.now }
{
    let mut last = 0u32;
    for end in ends {
        if let Some(inst) = end.inst {
            last = last.max(inst);
        }
    }
    last
}

/// The bits of the ends.
fn end_bits(ends: &[End]) -> u32
    ensures { result ≡ end_bits 0 ends.now }
{
    let mut bits = 0u32;
    for end in ends {
        bits |= end_bit(end);
    }
    bits
}

impl Marks for Inst {
    ghost mark = { inst_mark };

    fn made_mark(&self) -> Mark {
        Mark {
            name: name_number(&self.name.id),
            ends: 0,
            last: 0,
            bits: 0,
        }
    }
}

impl Marks for Net {
    ghost mark = { net_mark };

    fn made_mark(&self) -> Mark {
        let ends = self.ends.as_slice();
        Mark {
            name: name_number(&self.name.id),
            ends: ends.len().min(4_294_967_295) as u32,
            last: last_inst(ends),
            bits: end_bits(ends),
        }
    }
}
