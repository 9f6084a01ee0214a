// Sound files of each shape, and how long a file may be.
use crate::drafts::Draft;
use crate::shown::show;

// Every place of a full order.
const SIXTEEN: [u8; 16] = [16, 15, 14, 13, 12, 11, 10, 9, 8, 7, 6, 5, 4, 3, 2, 1];

const EIGHT_ROWS: [i32; 9] = [1, 2, 3, 4, 5, 6, 7, 8, -9];

pub(crate) fn shapes(rt: &HostRuntime) -> anyhow::Result<()> {
    let mut listed = Draft::front(rt.alloc(), &[2, 1], 1)?;
    listed.version(1, &[90, -20])?;
    listed.versions(2, 2, &[75, 180])?;
    listed.call(3, 0, 0)?;
    show(rt, "only listed", &listed)?;
    let mut ladders = Draft::front(rt.alloc(), &[1, 2], 1)?;
    ladders.ladder(1, 2, &[90, -30, -20, -30])?;
    ladders.ladder(2, 32, &[75, -35, 180, 80])?;
    ladders.call(3, 0, 0)?;
    show(rt, "only ladders", &ladders)?;
    let mut both = Draft::front(rt.alloc(), &[1, 2], 1)?;
    both.version(1, &[90, -20])?;
    both.ladder(2, 1, &[75, -35, 180, -80])?;
    show(rt, "both, and no calls", &both)?;
    both.searches(256)?;
    show(rt, "256 calls", &both)?;
    let mut one = Draft::front(rt.alloc(), &[1], 0)?;
    one.version(1, &[5])?;
    show(rt, "one place, m = 0", &one)
}

// The longest sound file: 16 places of 32 versions, 8 rows beside the price, and 256 calls.
pub(crate) fn largest(rt: &HostRuntime) -> anyhow::Result<()> {
    let mut full = Draft::front(rt.alloc(), &SIXTEEN, 8)?;
    for place in 1..=16 {
        full.versions(place, 32, &EIGHT_ROWS)?;
    }
    full.searches(256)?;
    let length = full.bytes.len();
    println!(rt; "the longest sound file has {length} bytes")?;
    show(rt, "n = 16 with 32 versions, m = 8", &full)
}

// No sound file has so many bytes: one of 32,768 meets another refusal, and a byte more is too long.
pub(crate) fn too_long(rt: &HostRuntime) -> anyhow::Result<()> {
    let mut long = Draft::front(rt.alloc(), &[1], 0)?;
    long.version(1, &[5])?;
    long.searches(256)?;
    long.bytes.resize(32_768, 6)?;
    show(rt, "32,768 bytes", &long)?;
    long.raw(&[6])?;
    show(rt, "32,769 bytes", &long)
}
