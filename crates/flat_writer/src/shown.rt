//! What is shown of an item: its line in a flattening, and its row in a pin table.
ghost use Rattle.csv_report.specs.Parts.{row_of_text};
ghost use Rattle.flat_report.specs.Parts.{line_of};

use csv_report::text_row;
use flat_items::ItemText;
use flat_report::text_line;
use netdb_outside::Appended;
use netlist_schema::{NoMemory, Shown};
use std::alloc::Global;

/// The line of an item of a design, whose paths are lent as texts.
#[derive(Drop)]
pub struct Line<'d, 't, S: Shown> {
    pub design: &'d S,
    pub item: ItemText<'t>,
}

impl<'d, 't, S: Shown> Appended for Line<'d, 't, S> {
    ghost text = { λ line. line_of (S.design line.design.now) line.item };

    #[inline(always)]
    fn append_to(&self, alloc: Global, bytes: &mut Vec<u8>) -> Result<(), NoMemory> {
        text_line(alloc, self.design, self.item, bytes)
    }
}

/// The row of an item of a design, whose paths are lent as texts.
#[derive(Drop)]
pub struct PinRow<'d, 't, S: Shown> {
    pub design: &'d S,
    pub item: ItemText<'t>,
}

impl<'d, 't, S: Shown> Appended for PinRow<'d, 't, S> {
    ghost text = { λ row. row_of_text (S.design row.design.now) row.item };

    #[inline(always)]
    fn append_to(&self, _alloc: Global, bytes: &mut Vec<u8>) -> Result<(), NoMemory> {
        text_row(self.design, self.item, bytes)
    }
}
