// The greatest amount counts, and the greater is worse.
ghost use Rattle.std.specs.Prelude.{refl};
ghost use Rattle.rules.specs.Joinings.{greatest_at_most};
ghost use Rattle.rules.proofs.JoiningLaws.{greatest_at_most_laws};

use crate::Joining;
use rules::AMOUNT_REACH;

pub struct GreatestAtMost;

impl Joining for GreatestAtMost {
    ghost rule = { greatest_at_most };

    // No amount of a catalogue is less.
    ghost UNIT = { greatest_at_most.unit };

    const UNIT: i64 = -(AMOUNT_REACH as i64);

    ghost unit = { refl };

    ghost kept = { greatest_at_most_laws };

    fn join(a: i64, b: i64) -> i64 {
        a.max(b)
    }

    fn is_worse(a: i64, b: i64) -> bool {
        a > b
    }
}
