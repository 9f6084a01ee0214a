// The amounts are added, and the less total is worse.
ghost use Rattle.std.specs.Prelude.{refl};
ghost use Rattle.rules.specs.Joinings.{sum_at_least};
ghost use Rattle.rules.proofs.JoiningLaws.{sum_at_least_laws};

use crate::Joining;

pub struct SumAtLeast;

impl Joining for SumAtLeast {
    ghost rule = { sum_at_least };

    ghost UNIT = { sum_at_least.unit };

    const UNIT: i64 = 0;

    ghost unit = { refl };

    ghost kept = { sum_at_least_laws };

    fn join(a: i64, b: i64) -> i64 {
        a.saturating_add(b)
    }

    fn is_worse(a: i64, b: i64) -> bool {
        a < b
    }
}
