// The fields of a file, and the sections in which they come.

// What a field holds.
#[derive(Clone, Copy, Debug, PartialEq, Eq)]
pub(crate) enum Field {
    Sheet,
    Row,
    Order,
    Version,
    Ladder,
    Call,
}

// How far a file has been read: which fields may come next.
#[derive(Clone, Copy, Debug, PartialEq, Eq)]
pub(crate) enum Section {
    // Nothing yet: the sheet comes.
    Start,
    // The sheet, and perhaps rows: rows or the order come.
    Rows,
    // The order, and perhaps versions: any of versions, ladders and calls come.
    Versions,
    // A ladder: ladders and calls come.
    Ladders,
    // A call: only calls come.
    Calls,
}
