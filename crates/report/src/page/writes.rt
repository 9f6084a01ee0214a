// Words and numbers on a page.
ghost use Rattle.std.specs.Prelude.{◌≡◌, ◌++◌, ◌≤◌, [], length};
ghost use Rattle.report.specs.Reports.{report_buffer};
ghost use Rattle.report.specs.Writing.{Puts};

use crate::page::Page;
use arrayvec::ArrayVec;
use itoa::{Buffer, Integer};

impl Page {
    // Nothing is written yet.
    pub(crate) fn blank() -> Page
        ensures { result.bytes.items ≡ [] }
    {
        Page {
            bytes: ArrayVec::new(),
        }
    }

    // What is written.
    pub(crate) fn text(&self) -> &[u8]
        ensures text { result.now ≡ self.now.bytes.items }
        ensures fits { length result.now ≤ report_buffer }
    {
        self.bytes.as_slice()
    }

    // Writes a word.
    pub(crate) fn put(&mut self, word: &str)
        ensures { Puts self.old word.now self.new }
    {
        let length = word.len().min(self.bytes.remaining_capacity());
        let Ok(()) = self.bytes.try_extend_from_slice(&word.as_bytes()[..length]) else {
            unreachable!()
        };
    }

    // Writes a word, and a number right behind it.
    pub(crate) fn put_number<I: Integer>(&mut self, word: &str, number: I)
        ensures { Puts self.old (word.now ++ I.text number) self.new }
    {
        self.put(word);
        self.put(Buffer::new().format(number));
    }
}
