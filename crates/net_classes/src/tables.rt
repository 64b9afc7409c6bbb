//! What is known of the nets of one cell.
ghost use Rattle.std.specs.Prelude.{◌≡◌, ◌<◌, ◌≤◌, ◌+◌, ℕ, Option, None, IfOk, IfSome, length, option_and_then, slice_get, slice_index_or};
ghost use Rattle.std.specs.List.{All};
ghost use Rattle.std.specs.Option.{option_copied};
ghost use Rattle.netlist_schema.specs.declared.limits.TheConstants.{MOST_BITS};
ghost use Rattle.net_classes.specs.Facts.{facts_of, first_in, no_facts};
ghost use Rattle.net_classes.specs.LeastBits.{AreSeen, IsLeastAnswer, first_of_bit};

use crate::bits::bit_number;
use crate::joints::Joint;
use netlist_schema::{CellId, NoMemory};
use std::alloc::Global;

/// The nets of one cell: which are connected in its tree, and what they join.
#[derive(Drop)]
pub struct CellNets {
    /// For each port the number of bits of the ports before it.
    pub starts: Vec<u32>,
    /// For each own bit the net that joins it.
    pub own: Vec<Option<u32>>,
    /// For each net the first net of the contents that is connected with it in the cell's tree.
    pub firsts: Vec<u32>,
    /// For each own bit the least own bit that is connected with it in the cell's tree.
    pub least: Vec<Option<u32>>,
    /// The bits of instances that nets join, by instance, port and bit.
    pub joints: Vec<Joint>,
}

impl CellNets {
    /// A cell of which nothing is known. Takes no memory.
    pub fn none(alloc: Global) -> CellNets
        ensures { facts_of result ≡ no_facts }
    {
        CellNets {
            starts: Vec::new(alloc),
            own: Vec::new(alloc),
            firsts: Vec::new(alloc),
            least: Vec::new(alloc),
            joints: Vec::new(alloc),
        }
    }

    /// The first net of the contents that is connected with the own bit.
    #[inline(always)]
    pub fn first_at(&self, port: u32, bit: u32) -> Option<u32>
        ensures { result ≡ first_in (facts_of self.now) (record { port = port; bit = bit }) }
    {
        let number = bit_number(self.starts.as_slice(), port, bit)?;
        let net = self.own.as_slice().get(number)?;
        self.first_of((*net)?)
    }

    /// The first net of the contents that is connected with the net.
    pub fn first_of(&self, net: u32) -> Option<u32>
        ensures { result ≡ slice_get self.now.firsts.items net }
    {
        self.firsts.as_slice().get(net as usize).copied()
    }
}

/// What is known of the cell with this id.
#[inline(always)]
pub(crate) fn table_of(cells: &[Vec<CellNets>], cell: CellId) -> Option<&CellNets>
    ensures { option_copied result ≡ option_and_then (λ row. slice_get row.items cell.slot) (slice_get cells.now cell.lib.0) }
{
    cells
        .get(cell.lib.0 as usize)?
        .as_slice()
        .get(cell.slot as usize)
}

/// The first net that is connected with a net, where there is one.
fn first_of(firsts: &[u32], net: Option<u32>) -> Option<u32>
    ensures { result ≡ option_and_then (slice_get firsts.now) net }
{
    firsts.get(net? as usize).copied()
}

/// No bit for each of so many nets.
fn no_bits(alloc: Global, count: usize) -> Result<Vec<Option<u32>>, NoMemory>
    ensures long { IfOk result (λ seen. length seen.items ≡ count) }
    ensures none { IfOk result (λ seen. All (λ bit. bit ≡ None) seen.items) }
{
    let mut seen = Vec::new(alloc);
    for _ in 0..count {
        seen.push(None)?;
    }
    Ok(seen)
}

/// For each own bit the least own bit whose net has the same first net.
pub(crate) fn least_bits(
    alloc: Global,
    own: &[Option<u32>],
    firsts: &[u32],
) -> Result<Vec<Option<u32>>, NoMemory>
    requires few { length own.now ≤ MOST_BITS }
    requires within { All (λ first. first < length firsts.now) firsts.now }
    ensures long { IfOk result (λ least. length least.items ≡ length own.now) }
    ensures least { IfOk result (λ least. (bit : ℕ) → bit < length own.now → IsLeastAnswer (first_of_bit own.now firsts.now) (first_of_bit own.now firsts.now bit) (slice_index_or least.items bit None)) }
{
    let mut seen = no_bits(alloc, firsts.len())?;
    list_least(alloc, seen.as_mut_slice(), own, firsts)
}

/// The same, where no bit was seen.
fn list_least(
    alloc: Global,
    seen: &mut [Option<u32>],
    own: &[Option<u32>],
    firsts: &[u32],
) -> Result<Vec<Option<u32>>, NoMemory>
    requires few { length own.now ≤ MOST_BITS }
    requires wide { length seen.old ≡ length firsts.now }
    requires none { All (λ bit. bit ≡ None) seen.old }
    requires within { All (λ first. first < length firsts.now) firsts.now }
    ensures long { IfOk result (λ least. length least.items ≡ length own.now) }
    ensures least { IfOk result (λ least. (bit : ℕ) → bit < length own.now → IsLeastAnswer (first_of_bit own.now firsts.now) (first_of_bit own.now firsts.now bit) (slice_index_or least.items bit None)) }
{
    let mut least = Vec::new(alloc);
    for (number, net) in own.iter().enumerate() {
        let first = first_of(firsts, *net);
        let bit = least_bit(seen, first, number as u32);
        least.push(bit)?;
    }
    Ok(least)
}

/// The least bit so far of the first net, which is this bit where there was none.
fn least_bit(seen: &mut [Option<u32>], first: Option<u32>, number: u32) -> Option<u32>
    requires { IfSome first (λ net. net < length seen.old) }
    ensures long { length seen.new ≡ length seen.old }
    ensures seen { (first_at : ℕ → Option ℕ) → first_at number ≡ first → AreSeen first_at number seen.old → AreSeen first_at (number + 1) seen.new }
    ensures answer { (first_at : ℕ → Option ℕ) → first_at number ≡ first → AreSeen first_at number seen.old → IsLeastAnswer first_at first result }
{
    let first = first? as usize;
    match seen[first] {
        Some(bit) => Some(bit),
        None => {
            seen[first] = Some(number);
            Some(number)
        }
    }
}
