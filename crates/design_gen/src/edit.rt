//! Edits of the design.
ghost use Rattle.std.specs.Prelude.{◌≡◌, ◌≤◌, IfOk};
ghost use Rattle.gen_spec.specs.Generated.{edit_at};
ghost use Rattle.gen_spec.specs.declared.limits.TheConstants.{MOST_SIZE};

use crate::parts::{letters, name, numbered};
use edit_spec::{CellName, Op, Target};
use netlist_schema::{NoMemory, Property, Value};
use std::alloc::Global;

/// The step from one inverter to the next to be edited, a prime number.
const STEP: u64 = 7919;

/// The edit of this number of the design of `count`: it sets a property of an inverter. Both are from 1 to 4,096.
pub fn gen_op(alloc: Global, count: u32, number: u32) -> Result<Op, NoMemory>
    requires count { (1 ≤ count) × (count ≤ MOST_SIZE) }
    requires number { (1 ≤ number) × (number ≤ MOST_SIZE) }
    ensures { IfOk result (λ op. op ≡ edit_at count number) }
{
    let inverter = (STEP * u64::from(number)) % u64::from(count);
    let inst = numbered(alloc, b'i', inverter as u32)?;
    let lib = letters(alloc, b"work")?;
    let cell = letters(alloc, b"row")?;
    let key = name(alloc, b"K")?;
    Ok(Op::SetProp {
        cell: CellName { lib, cell },
        target: Target::Inst(inst),
        property: Property {
            key,
            value: Value::Integer(i64::from(number)),
            owner: None,
        },
    })
}
