// The contents of versions and ladders.
use crate::drafts::Draft;
use crate::shown::show;

// Versions of these places in turn.
fn in_turn(rt: &HostRuntime, name: &str, places: &[u8]) -> anyhow::Result<()> {
    let mut draft = Draft::front(rt.alloc(), &[1, 2, 3], 0)?;
    for place in places {
        draft.version(*place, &[5])?;
    }
    show(rt, name, &draft)
}

pub(crate) fn turns(rt: &HostRuntime) -> anyhow::Result<()> {
    in_turn(rt, "versions of 1, 1, 2, 3", &[1, 1, 2, 3])?;
    in_turn(rt, "versions of 0", &[0])?;
    in_turn(rt, "versions of 2", &[2])?;
    in_turn(rt, "versions of 1, 3", &[1, 3])?;
    in_turn(rt, "versions of 1, 2, 1", &[1, 2, 1])?;
    in_turn(rt, "versions of 1, 2, 3, 4", &[1, 2, 3, 4])
}

// A version of place 1, and ladders of these places.
fn then_ladders(rt: &HostRuntime, name: &str, places: &[u8]) -> anyhow::Result<()> {
    let mut draft = Draft::front(rt.alloc(), &[1, 2, 3], 0)?;
    draft.version(1, &[5])?;
    for place in places {
        draft.ladder(*place, 1, &[5, 0])?;
    }
    show(rt, name, &draft)
}

pub(crate) fn ladder_turns(rt: &HostRuntime) -> anyhow::Result<()> {
    then_ladders(rt, "ladders of 2, 3", &[2, 3])?;
    then_ladders(rt, "ladders of 1", &[1])?;
    then_ladders(rt, "ladders of 3", &[3])?;
    then_ladders(rt, "ladders of 2, 2", &[2, 2])?;
    then_ladders(rt, "ladders of 2, 3, 4", &[2, 3, 4])
}

// A ladder with so many versions.
fn counted(rt: &HostRuntime, name: &str, count: u8) -> anyhow::Result<()> {
    let mut draft = Draft::front(rt.alloc(), &[1], 0)?;
    draft.ladder(1, count, &[5, 0])?;
    show(rt, name, &draft)
}

pub(crate) fn versions(rt: &HostRuntime) -> anyhow::Result<()> {
    let mut draft = Draft::front(rt.alloc(), &[1], 0)?;
    draft.versions(1, 32, &[5])?;
    show(rt, "32 versions", &draft)?;
    draft.version(1, &[5])?;
    show(rt, "33 versions", &draft)?;
    counted(rt, "ladder count 0", 0)?;
    counted(rt, "ladder count 1", 1)?;
    counted(rt, "ladder count 32", 32)?;
    counted(rt, "ladder count 33", 33)
}

pub(crate) fn missing(rt: &HostRuntime) -> anyhow::Result<()> {
    let mut draft = Draft::front(rt.alloc(), &[3, 2, 1], 2)?;
    show(rt, "no place", &draft)?;
    draft.version(1, &[1, 2, 3])?;
    show(rt, "one place of 3", &draft)?;
    draft.ladder(2, 1, &[1, 0, 2, 0, 3, 0])?;
    show(rt, "two places of 3", &draft)?;
    draft.ladder(3, 1, &[1, 0, 2, 0, 3, 0])?;
    show(rt, "three places of 3", &draft)
}

// A second version with these amounts.
fn with_amounts(rt: &HostRuntime, name: &str, amounts: &[i32]) -> anyhow::Result<()> {
    let mut draft = Draft::front(rt.alloc(), &[1], 2)?;
    draft.version(1, &[1, 2, 3])?;
    draft.version(1, amounts)?;
    show(rt, name, &draft)
}

pub(crate) fn amounts(rt: &HostRuntime) -> anyhow::Result<()> {
    with_amounts(
        rt,
        "amounts of 1,000,000",
        &[1_000_000, -1_000_000, 1_000_000],
    )?;
    with_amounts(rt, "a price of 1,000,001", &[1_000_001, 0, 0])?;
    with_amounts(rt, "row 1 with -1,000,001", &[0, -1_000_001, 1_000_001])?;
    with_amounts(rt, "row 2 with 1,000,001", &[0, 0, 1_000_001])?;
    with_amounts(rt, "row 2 with -2^31", &[0, 0, i32::MIN])
}

// A ladder of place 2 with four versions and these rungs.
fn with_rungs(rt: &HostRuntime, name: &str, rungs: &[i32]) -> anyhow::Result<()> {
    let mut draft = Draft::front(rt.alloc(), &[1, 2], 1)?;
    draft.version(1, &[1, 2])?;
    draft.ladder(2, 4, rungs)?;
    show(rt, name, &draft)
}

pub(crate) fn rungs(rt: &HostRuntime) -> anyhow::Result<()> {
    with_rungs(rt, "a last rung of -1,000,000", &[0, 0, 5, -333_335])?;
    with_rungs(rt, "a last rung of -1,000,001", &[0, 0, 4, -333_335])?;
    with_rungs(rt, "a first rung of 1,000,001", &[1_000_001, -1, 0, 0])?;
    with_rungs(
        rt,
        "rungs beyond in both rows, the second row earlier",
        &[0, 333_334, 0, 500_001],
    )?;
    with_rungs(rt, "a step of -2^31", &[0, 0, 0, i32::MIN])
}

// The earlier test wins: that of the earlier field, and in a field that of the lower number.
pub(crate) fn two_faults(rt: &HostRuntime) -> anyhow::Result<()> {
    let mut draft = Draft::new(rt.alloc());
    draft.sheet(2, 1, 20_000_001)?;
    draft.row(4, 0)?;
    show(rt, "a cap and a kind", &draft)?;
    let mut place = Draft::front(rt.alloc(), &[1], 0)?;
    place.ladder(2, 0, &[1_000_001, 0])?;
    show(
        rt,
        "a place out of turn, a count of 0 and an amount",
        &place,
    )?;
    let mut count = Draft::front(rt.alloc(), &[1], 0)?;
    count.ladder(1, 33, &[1_000_001, 0])?;
    show(rt, "a count of 33 and an amount", &count)?;
    let mut length = Draft::front(rt.alloc(), &[1], 0)?;
    length.head(4, 6)?;
    show(rt, "a wrong length and a body cut", &length)?;
    let mut tag = Draft::front(rt.alloc(), &[1], 0)?;
    tag.head(2, 6)?;
    show(rt, "a wrong tag and a wrong length", &tag)
}
