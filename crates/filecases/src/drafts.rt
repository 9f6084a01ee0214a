// Files made field by field, sound ones and others.
use std::alloc::{AllocError, Global};

// The bytes of a file as far as it is made.
#[derive(Drop)]
pub(crate) struct Draft {
    pub(crate) bytes: Vec<u8>,
}

impl Draft {
    // An empty file.
    pub(crate) fn new(heap: Global) -> Draft {
        Draft {
            bytes: Vec::new(heap),
        }
    }

    // A file up to its order, with so many rows of kind 1 and limit 0.
    pub(crate) fn front(heap: Global, order: &[u8], last_row: u8) -> Result<Draft, AllocError> {
        let mut draft = Draft::new(heap);
        // The last byte by a pattern, as in `head`: `try_from` would need an error of its own.
        let [.., places] = order.len().to_be_bytes();
        draft.sheet(places, last_row, 1000)?;
        for _ in 0..last_row {
            draft.row(1, 0)?;
        }
        draft.order(order)?;
        Ok(draft)
    }

    // These bytes behind the others.
    pub(crate) fn raw(&mut self, bytes: &[u8]) -> Result<(), AllocError> {
        self.bytes.extend_from_slice(bytes)
    }

    // The same byte so many times.
    pub(crate) fn fill(&mut self, byte: u8, count: u16) -> Result<(), AllocError> {
        self.bytes
            .resize(self.bytes.len() + usize::from(count), byte)
    }

    // The head of a field.
    pub(crate) fn head(&mut self, tag: u8, length: usize) -> Result<(), AllocError> {
        let [.., high, low] = length.to_be_bytes();
        self.raw(&[tag, high, low])
    }

    // Signed numbers of four bytes each.
    fn numbers(&mut self, numbers: &[i32]) -> Result<(), AllocError> {
        for number in numbers {
            self.raw(&number.to_be_bytes())?;
        }
        Ok(())
    }

    pub(crate) fn sheet(&mut self, places: u8, last_row: u8, cap: i32) -> Result<(), AllocError> {
        self.head(1, 6)?;
        self.raw(&[places, last_row])?;
        self.numbers(&[cap])
    }

    pub(crate) fn row(&mut self, kind: u8, limit: i32) -> Result<(), AllocError> {
        self.head(2, 5)?;
        self.bytes.push(kind)?;
        self.numbers(&[limit])
    }

    pub(crate) fn order(&mut self, places: &[u8]) -> Result<(), AllocError> {
        self.head(3, places.len())?;
        self.raw(places)
    }

    // A version of a place, with these amounts.
    pub(crate) fn version(&mut self, place: u8, amounts: &[i32]) -> Result<(), AllocError> {
        self.head(4, 1 + 4 * amounts.len())?;
        self.bytes.push(place)?;
        self.numbers(amounts)
    }

    // A ladder of a place with so many versions, and these bases and steps in turn.
    pub(crate) fn ladder(&mut self, place: u8, count: u8, rungs: &[i32]) -> Result<(), AllocError> {
        self.head(5, 2 + 4 * rungs.len())?;
        self.raw(&[place, count])?;
        self.numbers(rungs)
    }

    pub(crate) fn call(&mut self, code: u8, row: u8, number: i32) -> Result<(), AllocError> {
        self.head(6, 6)?;
        self.raw(&[code, row])?;
        self.numbers(&[number])
    }

    // So many calls of a search.
    pub(crate) fn searches(&mut self, count: u16) -> Result<(), AllocError> {
        for _ in 0..count {
            self.call(3, 0, 0)?;
        }
        Ok(())
    }

    // So many versions of a place, all with these amounts.
    pub(crate) fn versions(
        &mut self,
        place: u8,
        count: u8,
        amounts: &[i32],
    ) -> Result<(), AllocError> {
        for _ in 0..count {
            self.version(place, amounts)?;
        }
        Ok(())
    }
}
