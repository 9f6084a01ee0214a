// The texts of a sheet and of calls.
ghost use Rattle.std.specs.Prelude.{Some, take, flat_map};
ghost use Rattle.shown.specs.Texts.{call_text, rows_text, sheet_text};

use crate::numbers::FirstNumbers;
use rules::{Request, Row, Sheet};
use std::fmt;

// So many rows from the front of a table, a line each, numbered from 1. The count stands beside the table: of a table that was cut it
// would be open that it is the front of one.
#[derive(Drop)]
struct FirstRows<'a> {
    count: u8,
    table: &'a [Row],
}

impl fmt::Display for FirstRows<'_> {
    ghost output = { λ text. Some (rows_text (take text.count text.table.now)) };

    fn fmt<W: fmt::Write>(&self, f: &mut fmt::Formatter<W>) -> fmt::Result {
        let rows = self.table.iter().take(usize::from(self.count));
        for (index, row) in rows.enumerate() {
            let (kind, limit) = (row.kind, row.limit);
            writeln!(f, "ROW {} KIND {kind} LIMIT {limit}", index + 1)?;
        }
        Ok(())
    }
}

// The counts of a sheet, its rows in turn from the price on, and its order.
#[derive(Drop)]
pub struct SheetText<'a>(pub &'a Sheet);

impl fmt::Display for SheetText<'_> {
    ghost output = { λ text. Some (sheet_text text.0.now) };

    fn fmt<W: fmt::Write>(&self, f: &mut fmt::Formatter<W>) -> fmt::Result {
        let sheet = self.0;
        writeln!(f, "JOB {} {}", sheet.places, sheet.last_row)?;
        writeln!(f, "ROW 0 KIND 1 LIMIT {}", sheet.cap)?;
        let rows = FirstRows {
            count: sheet.last_row,
            table: &sheet.rows,
        };
        let order = FirstNumbers {
            count: sheet.places,
            table: &sheet.order,
        };
        writeln!(f, "{rows}ORDER{order}")
    }
}

// Calls, a line each.
#[derive(Drop)]
pub struct CallsText<'a>(pub &'a [Request]);

impl fmt::Display for CallsText<'_> {
    ghost output = { λ text. Some (flat_map call_text text.0.now) };

    fn fmt<W: fmt::Write>(&self, f: &mut fmt::Formatter<W>) -> fmt::Result {
        for call in self.0 {
            let (code, row, number) = (call.code, call.row, call.number);
            writeln!(f, "CALL {code} {row} {number}")?;
        }
        Ok(())
    }
}
