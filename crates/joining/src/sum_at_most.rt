// The amounts are added, and the greater total is worse.
ghost use Rattle.std.specs.Prelude.{refl};
ghost use Rattle.rules.specs.Joinings.{sum_at_most};
ghost use Rattle.rules.proofs.JoiningLaws.{sum_at_most_laws};

use crate::Joining;

pub struct SumAtMost;

impl Joining for SumAtMost {
    ghost rule = { sum_at_most };

    ghost UNIT = { sum_at_most.unit };

    const UNIT: i64 = 0;

    ghost unit = { refl };

    ghost kept = { sum_at_most_laws };

    fn join(a: i64, b: i64) -> i64 {
        a.saturating_add(b)
    }

    fn is_worse(a: i64, b: i64) -> bool {
        a > b
    }
}
