//! The row of an item.
ghost use Rattle.std.specs.Prelude.{◌≡◌, ◌++◌, IfOk, OnErr, OnOk};
ghost use Rattle.flat_csv_spec.specs.PinTable.{header as names_of_columns, pin_row as row_of_item};
ghost use Rattle.flat_items.specs.Lent.{item_of};
ghost use Rattle.csv_report.specs.Parts.{row_of_pin};

use crate::pin::PinRef;
use crate::places::{first_name, first_path_bytes, path_bytes, port_name};
use crate::written::row_bytes;
use flat_items::ItemRef;
use flat_spec::Item;
use itoa::Buffer;
use netlist_schema::{NoMemory, Shown};
use std::alloc::Global;

/// The row of the names of the columns, with a line feed at its end: `path,port,bit,net_path,net`.
pub fn header() -> &'static [u8]
    ensures { result.now ≡ names_of_columns }
{
    b"path,port,bit,net_path,net\n"
}

/// Appends the row of an item, with a line feed at its end: of a pin the path of its occurrence, the identifier of its port, the
/// bit of the port counted from 0, and the path and identifier of the representative of the net that joins the bit, both empty
/// where no net does. A path is `/` for the top, else `/` before each instance's identifier; where the design has nothing of that
/// number, nothing stands for its name. A field stands in quotes where it has a comma, a quote or an end of a line, and its quotes
/// are written twice. For other items nothing is appended. After `NoMemory` the bytes are as before.
pub fn pin_row<S: Shown>(
    alloc: Global,
    design: &S,
    item: &Item,
    out: &mut Vec<u8>,
) -> Result<(), NoMemory>
    ensures ok { OnOk result (out.new.items ≡ out.old.items ++ row_of_item (S.design design.now) item.now) }
    ensures err { OnErr result (out.new.items ≡ out.old.items) }
{
    lent_row(alloc, design, ItemRef::of(item), out)
}

/// The same of a lent item.
pub fn lent_row<S: Shown>(
    alloc: Global,
    design: &S,
    item: ItemRef<'_>,
    out: &mut Vec<u8>,
) -> Result<(), NoMemory>
    ensures ok { OnOk result (out.new.items ≡ out.old.items ++ row_of_item (S.design design.now) (item_of item.entry)) }
    ensures err { OnErr result (out.new.items ≡ out.old.items) }
{
    match item {
        ItemRef::Pin {
            path,
            port,
            bit,
            first,
        } => {
            let pin = PinRef {
                path,
                port,
                bit,
                first,
            };
            push_pin(alloc, design, pin, out)
        }
        ItemRef::Enter { .. } => Ok(()),
        ItemRef::Net { .. } => Ok(()),
    }
}

/// Appends the row of a pin. After `NoMemory` the bytes are as before.
fn push_pin<S: Shown>(
    alloc: Global,
    design: &S,
    pin: PinRef<'_>,
    out: &mut Vec<u8>,
) -> Result<(), NoMemory>
    ensures ok { OnOk result (out.new.items ≡ out.old.items ++ row_of_pin (S.design design.now) pin.entry) }
    ensures err { OnErr result (out.new.items ≡ out.old.items) }
{
    let text = pin_bytes(alloc, design, pin)?;
    out.extend_from_slice(&text)?;
    Ok(())
}

/// The row of a pin.
fn pin_bytes<S: Shown>(alloc: Global, design: &S, pin: PinRef<'_>) -> Result<Vec<u8>, NoMemory>
    ensures { IfOk result (λ text. text.items ≡ row_of_pin (S.design design.now) pin.entry) }
{
    let place = path_bytes(alloc, design, pin.path)?;
    let net_place = first_path_bytes(alloc, design, pin.first)?;
    let mut buffer = Buffer::new();
    row_bytes(
        alloc,
        &[
            place.as_slice(),
            port_name(design, pin.path, pin.port),
            buffer.format(pin.bit).as_bytes(),
            net_place.as_slice(),
            first_name(design, pin.first),
        ],
    )
}
