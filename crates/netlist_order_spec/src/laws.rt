//! What the definition of the order says.
ghost use Rattle.std.specs.Prelude.{◌≡◌, ℕ, List, Some, length, slice_get, []};
ghost use Rattle.std.specs.List.{range_with_len};
ghost use Rattle.std.specs.List.Sorted.{IsPermutation};
ghost use Rattle.netlist_schema.specs.Design.{Design};
ghost use Rattle.netlist_schema.specs.Types.{CellBody, Lib};
ghost use Rattle.netlist_schema.specs.Valid.{IsValid};
ghost use Rattle.netlist_order_spec.specs.After.{AllAfter};
ghost use Rattle.netlist_order_spec.specs.InTime.{ComesInTime, NoneEarlier};
ghost use Rattle.netlist_order_spec.specs.Order.{order_of};

/// The order of each library of a valid design has each of its cells once. In any library each cell comes when it was not
/// there yet and the cells that it places in the library were, and each time the first such cell comes.
pub fn order_is_whole()
    ensures whole { (d : Design) (own : ℕ) (lib : Lib) → IsValid d → slice_get d.libs own ≡ Some lib
        → IsPermutation (range_with_len 0 (length lib.cells)) (order_of own lib.cells) }
    ensures in_time { (own : ℕ) (cells : List CellBody) → AllAfter (ComesInTime own cells) [] (order_of own cells) }
    ensures first { (own : ℕ) (cells : List CellBody) → AllAfter (NoneEarlier own cells) [] (order_of own cells) }
{}
