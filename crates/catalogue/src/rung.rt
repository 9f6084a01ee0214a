// The rungs of a ladder.
ghost use Rattle.std.specs.Prelude.{◌≡◌, ◌*◌, ◌^◌, ◌≤◌, pos, ◌*ℤ◌, unsigned_abs};
ghost use Rattle.rules.specs.Catalogues.{rung};

// The amounts of one row at one place: the base at version 1, and a step more for each version above.
#[derive(Clone, Copy, Debug, PartialEq, Eq)]
pub struct Rung {
    pub base: i32,
    pub step: i32,
    // Both fit 32 bits.
    ghost near: { (unsigned_abs base ≤ 2 ^ 31) × (unsigned_abs step ≤ 2 ^ 31) },
}

// A rung at 0; by hand, since `Default` can't be derived on a struct with a ghost field.
impl Default for Rung {
    ghost is_default = { λ rung. (rung.base ≡ pos 0) × (rung.step ≡ pos 0) };

    fn default() -> Rung {
        Rung { base: 0, step: 0 }
    }
}

// So many steps, worked out in 64 bits without loss.
fn steps(count: u8, step: i32) -> i64
    ensures is { result ≡ pos count *ℤ step }
    ensures near { unsigned_abs result ≤ 2 ^ 8 * 2 ^ 31 }
{
    i64::from(count) * i64::from(step)
}

impl Rung {
    // The amount of a version: the base, and a step for each version above the first.
    pub fn at(self, version: u8) -> i64
        ensures { result ≡ rung self.base self.step version }
    {
        i64::from(self.base) + steps(version.saturating_sub(1), self.step)
    }
}
