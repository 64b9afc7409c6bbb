//! Fields as the text of a row.
ghost use Rattle.std.specs.Prelude.{◌≡◌, ◌<◌, IfOk, length, map};
ghost use Rattle.flat_csv_spec.specs.Fields.{row};

use csv::Writer;
use netlist_schema::NoMemory;
use std::alloc::Global;

/// The row of fields, of which there are two at least, with a line feed at its end.
pub(crate) fn row_bytes(alloc: Global, fields: &[&[u8]]) -> Result<Vec<u8>, NoMemory>
    requires { 1 < length fields.now }
    ensures { IfOk result (λ text. text.items ≡ row (map (λ field. field.now) fields.now)) }
{
    let mut writer = Writer::from_writer(Vec::new(alloc));
    let Ok(()) = writer.write_fields(fields) else {
        return Err(NoMemory);
    };
    match writer.into_inner() {
        Ok(text) => Ok(text),
        Err(_) => Err(NoMemory),
    }
}
