// Fields that are cut, mistagged or of a wrong length, and the contents of sheets, rows, orders and calls.
use crate::drafts::Draft;
use crate::shown::show;

// Files that end within a field.
pub(crate) fn cut(rt: &HostRuntime) -> anyhow::Result<()> {
    let mut draft = Draft::new(rt.alloc());
    draft.raw(&[1, 0])?;
    show(rt, "a head cut", &draft)?;
    draft.raw(&[6, 1, 0, 0, 0, 0])?;
    show(rt, "a body cut", &draft)?;
    draft.raw(&[5])?;
    draft.order(&[1])?;
    draft.version(1, &[5])?;
    show(rt, "neither", &draft)?;
    draft.raw(&[6, 0])?;
    show(rt, "a later head cut", &draft)
}

// A file that goes wrong at its last field.
fn then_field(rt: &HostRuntime, name: &str, tag: u8, length: u16) -> anyhow::Result<()> {
    let mut draft = Draft::front(rt.alloc(), &[1, 2], 1)?;
    draft.version(1, &[90, -20])?;
    draft.ladder(2, 1, &[75, -35, 180, -80])?;
    draft.head(tag, usize::from(length))?;
    draft.fill(0, length)?;
    show(rt, name, &draft)
}

pub(crate) fn tags(rt: &HostRuntime) -> anyhow::Result<()> {
    then_field(rt, "tag 0", 0, 0)?;
    then_field(rt, "a second sheet", 1, 6)?;
    then_field(rt, "a row after the order", 2, 5)?;
    then_field(rt, "a second order", 3, 2)?;
    then_field(rt, "a version after a ladder", 4, 9)?;
    then_field(rt, "tag 7", 7, 3)?;
    let mut draft = Draft::front(rt.alloc(), &[1], 0)?;
    draft.version(1, &[5])?;
    draft.call(3, 0, 0)?;
    draft.ladder(1, 1, &[5, 0])?;
    show(rt, "a ladder after a call", &draft)?;
    let mut early = Draft::new(rt.alloc());
    early.sheet(1, 1, 0)?;
    early.order(&[1])?;
    show(rt, "an order before its rows", &early)?;
    let mut late = Draft::new(rt.alloc());
    late.sheet(1, 0, 0)?;
    late.row(1, 0)?;
    show(rt, "a row too many", &late)
}

// Files that end before their order.
pub(crate) fn early_ends(rt: &HostRuntime) -> anyhow::Result<()> {
    let mut draft = Draft::new(rt.alloc());
    show(rt, "an empty file", &draft)?;
    draft.sheet(1, 1, 0)?;
    show(rt, "only a sheet", &draft)?;
    draft.row(1, 0)?;
    show(rt, "no order", &draft)
}

pub(crate) fn lengths(rt: &HostRuntime) -> anyhow::Result<()> {
    let mut short = Draft::new(rt.alloc());
    short.head(1, 5)?;
    show(rt, "a sheet of 5 bytes", &short)?;
    let mut long = Draft::new(rt.alloc());
    long.head(1, 262)?;
    show(rt, "a sheet of 262 bytes", &long)?;
    let mut row = Draft::new(rt.alloc());
    row.sheet(1, 1, 0)?;
    row.head(2, 4)?;
    show(rt, "a row of 4 bytes", &row)?;
    let mut order = Draft::new(rt.alloc());
    order.sheet(2, 0, 0)?;
    order.order(&[1, 2, 3])?;
    show(rt, "an order of 3 for 2 places", &order)?;
    let mut version = Draft::front(rt.alloc(), &[1], 1)?;
    version.version(1, &[5])?;
    show(rt, "a version with an amount missing", &version)?;
    let mut ladder = Draft::front(rt.alloc(), &[1], 1)?;
    ladder.ladder(1, 1, &[5, 0, 5])?;
    show(rt, "a ladder with a step missing", &ladder)?;
    then_field(rt, "a call of 7 bytes", 6, 7)
}

// A file whose last field is a call.
fn then_call(rt: &HostRuntime, name: &str, code: u8, row: u8, number: i32) -> anyhow::Result<()> {
    let mut draft = Draft::front(rt.alloc(), &[1], 0)?;
    draft.version(1, &[5])?;
    draft.call(code, row, number)?;
    show(rt, name, &draft)
}

pub(crate) fn calls(rt: &HostRuntime) -> anyhow::Result<()> {
    then_call(rt, "code 0", 0, 0, 0)?;
    then_call(rt, "code 1 with row and number", 1, 255, i32::MIN)?;
    then_call(rt, "code 2", 2, 0, 0)?;
    then_call(rt, "code 2 with a row", 2, 1, 0)?;
    then_call(rt, "code 3 with a number", 3, 0, -1)?;
    then_call(rt, "code 4 with a number", 4, 0, i32::MAX)?;
    then_call(rt, "code 4 with a row", 4, 1, 0)?;
    then_call(rt, "code 5", 5, 0, 0)?;
    then_call(rt, "code 5 with a number", 5, 0, 1)?;
    then_call(rt, "code 6", 6, 0, 0)?;
    let mut draft = Draft::front(rt.alloc(), &[1], 0)?;
    draft.version(1, &[5])?;
    draft.searches(257)?;
    show(rt, "257 calls", &draft)
}

// A file that is only a sheet.
fn only_sheet(
    rt: &HostRuntime,
    name: &str,
    places: u8,
    last_row: u8,
    cap: i32,
) -> anyhow::Result<()> {
    let mut draft = Draft::new(rt.alloc());
    draft.sheet(places, last_row, cap)?;
    show(rt, name, &draft)
}

// Sheets alone: a good one is refused at the file's end.
pub(crate) fn counts(rt: &HostRuntime) -> anyhow::Result<()> {
    only_sheet(rt, "n = 0", 0, 0, 0)?;
    only_sheet(rt, "n = 1", 1, 0, 0)?;
    only_sheet(rt, "n = 16", 16, 0, 0)?;
    only_sheet(rt, "n = 17", 17, 0, 0)?;
    only_sheet(rt, "m = 8", 1, 8, 0)?;
    only_sheet(rt, "m = 9", 1, 9, 0)?;
    only_sheet(rt, "cap 20,000,000", 1, 0, 20_000_000)?;
    only_sheet(rt, "cap 20,000,001", 1, 0, 20_000_001)?;
    only_sheet(rt, "cap -20,000,000", 1, 0, -20_000_000)?;
    only_sheet(rt, "cap -20,000,001", 1, 0, -20_000_001)?;
    only_sheet(rt, "n = 17 and cap 20,000,001", 17, 0, 20_000_001)
}

// A file that ends with its only row.
fn only_row(rt: &HostRuntime, name: &str, kind: u8, limit: i32) -> anyhow::Result<()> {
    let mut draft = Draft::new(rt.alloc());
    draft.sheet(1, 1, 0)?;
    draft.row(kind, limit)?;
    show(rt, name, &draft)
}

// Rows alone: a good one is refused at the file's end.
pub(crate) fn kinds(rt: &HostRuntime) -> anyhow::Result<()> {
    only_row(rt, "kind 0", 0, 0)?;
    only_row(rt, "kind 1", 1, 0)?;
    only_row(rt, "kind 3", 3, 0)?;
    only_row(rt, "kind 4", 4, 0)
}

pub(crate) fn limits(rt: &HostRuntime) -> anyhow::Result<()> {
    only_row(rt, "limit 20,000,000", 2, 20_000_000)?;
    only_row(rt, "limit 20,000,001", 2, 20_000_001)?;
    only_row(rt, "limit -20,000,000", 2, -20_000_000)?;
    only_row(rt, "limit -20,000,001", 2, -20_000_001)?;
    only_row(rt, "limit -2^31", 2, i32::MIN)?;
    only_row(rt, "kind 4 and limit -2^31", 4, i32::MIN)
}

// A file that ends with its order: a good one is refused for its missing places.
fn only_order(rt: &HostRuntime, name: &str, order: &[u8]) -> anyhow::Result<()> {
    let draft = Draft::front(rt.alloc(), order, 0)?;
    show(rt, name, &draft)
}

pub(crate) fn orders(rt: &HostRuntime) -> anyhow::Result<()> {
    only_order(rt, "order 3, 1, 2", &[3, 1, 2])?;
    only_order(rt, "order 3, 1, 3", &[3, 1, 3])?;
    only_order(rt, "order 0, 1, 2", &[0, 1, 2])?;
    only_order(rt, "order 2, 3, 4", &[2, 3, 4])
}
