// Calls as records.

// What a record asks: the code of a call, and the row and the number that it is about. The code stays plain, since one
// that there isn't is answered too.
#[derive(Clone, Copy, Debug, Default, PartialEq, Eq)]
pub struct Request {
    pub code: u8,
    pub row: u8,
    pub number: i32,
}

// A request with its answer: 0, or the number of the refusal. The answer stays plain: a record is lent with room for a
// number.
#[derive(Clone, Copy, Debug, Default, PartialEq, Eq)]
pub struct CallRecord {
    pub request: Request,
    pub answer: u8,
}
