//! One node as a tree keeps it.
ghost use Rattle.std.specs.Prelude.{◌≡◌, ◌<◌, ◌≤◌, ◌∷◌, [], IfNone, IfOk, IfSome, Some, drop, length, slice_get, take};
ghost use Rattle.edif_tree.specs.Packed.{kind_of};
ghost use Rattle.edif_tree.specs.Ranges.{ids_of};

use netlist_schema::{Ident, NoMemory};
use std::marker::Model;

/// The place of a node in its tree's list of nodes, from 0.
#[derive(Clone, Copy)]
pub struct NodeId(pub u32);

/// Nodes that stand side by side in the list, from a place to before another.
#[derive(Clone, Copy)]
pub struct NodeRange {
    pub first: u32,
    pub end: u32,
}

impl NodeRange {
    /// How many there are.
    pub fn len(self) -> usize
        ensures { result ≡ length (ids_of self) }
    {
        self.end.saturating_sub(self.first) as usize
    }

    /// The one at a place.
    pub fn at(self, i: usize) -> NodeId
        requires { i < length (ids_of self) }
        ensures { slice_get (ids_of self) i ≡ Some result }
    {
        NodeId(self.first + i as u32)
    }

    /// The first and the others, where there is one.
    #[inline(always)]
    pub fn split_first(self) -> Option<(NodeId, NodeRange)>
        ensures some { IfSome result (λ p. ids_of self ≡ p.0 ∷ ids_of p.1) }
        ensures none { IfNone result (ids_of self ≡ []) }
    {
        if self.first >= self.end {
            return None;
        }
        let others = NodeRange {
            first: self.first + 1,
            end: self.end,
        };
        Some((NodeId(self.first), others))
    }

    /// Those before a place, and those from there on.
    pub fn split_at(self, mid: usize) -> (NodeRange, NodeRange)
        requires { mid ≤ length (ids_of self) }
        ensures front { ids_of result.0 ≡ take mid (ids_of self) }
        ensures back { ids_of result.1 ≡ drop mid (ids_of self) }
    {
        let middle = self.first + mid as u32;
        let front = NodeRange {
            first: self.first,
            end: middle,
        };
        let back = NodeRange {
            first: middle,
            end: self.end,
        };
        (front, back)
    }
}

/// What stands at a node, as it is lent.
#[derive(Clone, Copy)]
pub enum StoredShape<'a> {
    /// A form, by the nodes of its arguments in order.
    Form(NodeRange),
    /// A word, by its name.
    Word(&'a Ident),
    /// A number.
    Integer(i64),
    /// A string, by the bytes that it stands for.
    String(&'a [u8]),
}

/// What stands at a node. The arguments of forms, words, integers and strings stand in lists of their own, and a node has the place
/// there.
#[derive(Clone, Copy)]
pub enum StoredKind {
    Form(u32),
    Word(u32),
    Integer(u32),
    String(u32),
}

/// The same in 4 bytes: the place above two bits that say which of the four it is.
#[derive(Clone, Copy)]
pub struct PackedKind {
    bits: u32,
}

impl Model for PackedKind {
    ghost use Rattle.edif_tree.specs.Packed.{packed, repacked, unpacked};
    ghost use Rattle.edif_tree.specs.declared.stored.StoredKind.{StoredKind};

    ghost Value = { StoredKind };

    ghost view = { λ k. unpacked k.bits };

    ghost inverse = { λ kind. record { bits = packed kind } };

    ghost inverse_ok = { λ k h i. record { bits = repacked k.bits i } };
}

/// The largest place that is kept.
const MOST_PLACE: u32 = 1_073_741_823;

impl PackedKind {
    /// The kind with this number and this place.
    #[inline(always)]
    fn with(tag: u32, at: u32) -> Result<PackedKind, NoMemory>
        requires { tag < 4 }
        ensures { IfOk result (λ kept. kept ≡ kind_of tag at) }
    {
        if at > MOST_PLACE {
            return Err(NoMemory);
        }
        Ok(PackedKind { bits: at * 4 + tag })
    }

    /// A kind as it is kept. There is no memory for a place of more than 30 bits.
    #[inline(always)]
    pub fn of(kind: StoredKind) -> Result<PackedKind, NoMemory>
        ensures { IfOk result (λ kept. kept ≡ kind) }
    {
        match kind {
            StoredKind::Form(at) => PackedKind::with(0, at),
            StoredKind::Word(at) => PackedKind::with(1, at),
            StoredKind::Integer(at) => PackedKind::with(2, at),
            StoredKind::String(at) => PackedKind::with(3, at),
        }
    }

    /// The kind that is kept.
    #[inline(always)]
    pub fn unpack(self) -> StoredKind
        ensures { result ≡ self }
    {
        let at = self.bits / 4;
        match self.bits % 4 {
            0 => StoredKind::Form(at),
            1 => StoredKind::Word(at),
            2 => StoredKind::Integer(at),
            _ => StoredKind::String(at),
        }
    }
}

/// A node, and the number of bytes before its first token, in 8 bytes.
#[derive(Clone, Copy)]
pub struct StoredNode {
    pub place: u32,
    pub kind: PackedKind,
}
