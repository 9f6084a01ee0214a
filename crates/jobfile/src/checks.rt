// The tests of what a field says, each with the fault that it gives.
ghost use Rattle.std.specs.Prelude.{◌≡◌, ℕ, suc, ◌+◌, ◌*◌, ◌≤◌, ℤ, length, is_some, slice_index};
ghost use Rattle.rules.specs.Bounds.{greatest_row};
ghost use Rattle.rules.specs.Numbers.{number_at as number_in};
ghost use Rattle.rules.specs.Openings.{checked, amount_tests};
ghost use Rattle.rules.specs.Refusals.{fault_in};
ghost use Rattle.rules.specs.Records.{asked};
ghost use Rattle.jobfile.specs.Contents.{amount_fault, sheet_tests, row_tests, order_tests, version_tests, call_tests};
ghost use Rattle.jobfile.specs.Reading.{amount_in};
ghost use Rattle.jobfile.specs.Amounts.{Gives};

use crate::bounds::MOST_CALLS;
use rules::{
    Fault, GREATEST_AMOUNT, GREATEST_LIMIT, GREATEST_ROW, Kind, MOST_PLACES, MOST_VERSIONS,
    Refusal, Request, Row, Sheet, lists_each,
};

// A fault of the field that begins at a byte.
pub(crate) fn fault_at(refusal: Refusal, at: u16) -> Fault
    ensures { result ≡ fault_in refusal at 0 0 0 }
{
    Fault {
        byte: at,
        ..Fault::from(refusal)
    }
}

// A sheet's counts and cap.
pub(crate) fn check_sheet(n: u8, m: u8, cap: i32, at: u16) -> Result<(), Fault>
    ensures { result ≡ checked (sheet_tests n m «cap» at) }
{
    if !(1..=MOST_PLACES).contains(&usize::from(n)) || usize::from(m) > GREATEST_ROW {
        return Err(fault_at(Refusal::CountOutside, at));
    }
    if cap.unsigned_abs() > GREATEST_LIMIT {
        return Err(fault_at(Refusal::LimitBeyond, at));
    }
    Ok(())
}

// A row's kind and limit.
pub(crate) fn check_row(row: Row, at: u16) -> Result<(), Fault>
    ensures { result ≡ checked (row_tests row.kind row.limit at) }
{
    Kind::try_from(row.kind).map_err(|refusal| fault_at(refusal, at))?;
    if row.limit.unsigned_abs() > GREATEST_LIMIT {
        return Err(fault_at(Refusal::LimitBeyond, at));
    }
    Ok(())
}

// The order of so many places.
pub(crate) fn check_order(n: u8, order: &[u8], at: u16) -> Result<(), Fault>
    ensures { result ≡ checked (order_tests n order.now at) }
{
    if !lists_each(n, order) {
        return Err(fault_at(Refusal::OrderNotOnce, at));
    }
    Ok(())
}

// Where amounts stand: the byte where their field begins, their place and their version.
#[derive(Clone, Copy)]
pub(crate) struct Spot {
    pub(crate) byte: u16,
    pub(crate) place: u8,
    pub(crate) version: u8,
}

impl Spot {
    // The fault of the amount of a row.
    fn beyond(self, row: u8) -> Fault
        ensures { result ≡ amount_fault self.byte self.place self.version row }
    {
        Fault {
            place: self.place,
            version: self.version,
            row,
            ..fault_at(Refusal::AmountBeyond, self.byte)
        }
    }
}

// The amounts of a version, row by row.
pub(crate) fn check_amounts<A: Fn(u8) -> i64>(
    last_row: u8,
    amount: A,
    spot: Spot,
) -> Result<(), Fault>
    requires few { last_row ≤ greatest_row }
    requires callable { (row : ℕ) → row ≤ last_row → A.pre amount row }
    ensures { (amounts : ℕ → ℤ) → Gives (A.post amount) last_row amounts → result ≡ checked (amount_tests (suc last_row) amounts (amount_fault spot.byte spot.place spot.version)) }
{
    for row in 0..=last_row {
        if amount(row).unsigned_abs() > GREATEST_AMOUNT {
            return Err(spot.beyond(row));
        }
    }
    Ok(())
}

// The number in four bytes that a body is known to have, so that none is tested for each amount of a file.
fn number_within(body: &[u8], at: usize) -> i32
    requires { at + 4 ≤ length body.now }
    ensures { result ≡ number_in body.now at }
{
    i32::from_be_bytes([body[at], body[at + 1], body[at + 2], body[at + 3]])
}

// A version after so many listed places, of a place that has so many versions.
pub(crate) fn check_version(
    sheet: &Sheet,
    listed: u8,
    has: u8,
    body: &[u8],
    at: u16,
) -> Result<(), Fault>
    requires few { sheet.now.last_row ≤ greatest_row }
    requires length { length body.now ≡ 5 + 4 * sheet.now.last_row }
    ensures { result ≡ checked (version_tests sheet.now.places sheet.now.last_row listed has (slice_index body.now 0) (amount_in sheet.now.last_row body.now) at) }
{
    let place = body[0];
    if !(1..=sheet.places).contains(&place)
        || !(listed..=listed.saturating_add(1)).contains(&place)
    {
        return Err(fault_at(Refusal::PlaceOutOfTurn, at));
    }
    if has >= MOST_VERSIONS {
        return Err(fault_at(Refusal::VersionsOutside, at));
    }
    let spot = Spot {
        byte: at,
        place,
        version: has + 1,
    };
    // By row and not in chunks, since the same check serves the rungs of a ladder.
    check_amounts(
        sheet.last_row,
        |row|
            requires { 5 + 4 * row ≤ length body.now }
        { i64::from(number_within(body, 1 + 4 * usize::from(row))) },
        spot,
    )
}

// A call that there is, with 0 in each part that its code does not use.
#[tactic(auto, unfolding(rules::specs::Records::asked))]
fn is_call(request: Request) -> bool
    ensures { result ≡ is_some (asked request) }
{
    matches!(
        request,
        Request { code: 1, .. }
            | Request {
                code: 4,
                row: 0,
                ..
            }
            | Request {
                code: 2 | 3 | 5,
                row: 0,
                number: 0
            }
    )
}

// A call after so many calls.
pub(crate) fn check_call(calls: usize, request: Request, at: u16) -> Result<(), Fault>
    ensures { result ≡ checked (call_tests calls request at) }
{
    if calls >= MOST_CALLS || !is_call(request) {
        return Err(fault_at(Refusal::NoCall, at));
    }
    Ok(())
}
