// Numbers in a row.
ghost use Rattle.std.specs.Prelude.{Some, take};
ghost use Rattle.shown.specs.Texts.{numbers_text};

use std::fmt;

// So many numbers from the front of a table, each behind a space. The count stands beside the table: of a table that was cut it
// would be open that it is the front of one.
#[derive(Drop)]
pub(crate) struct FirstNumbers<'a> {
    pub(crate) count: u8,
    pub(crate) table: &'a [u8],
}

impl fmt::Display for FirstNumbers<'_> {
    ghost output = { λ text. Some (numbers_text (take text.count text.table.now)) };

    fn fmt<W: fmt::Write>(&self, f: &mut fmt::Formatter<W>) -> fmt::Result {
        for number in self.table.iter().take(usize::from(self.count)) {
            write!(f, " {number}")?;
        }
        Ok(())
    }
}
