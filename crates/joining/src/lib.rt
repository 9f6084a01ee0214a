// The joinings: how the amounts of a row come to a total, and which of two totals is worse.
#![tactic(auto)]

ghost use Rattle.std.specs.Prelude.{◌≡◌, ℤ};
ghost use Rattle.rules.specs.Joinings.{Joining as Rule, Laws};
ghost use Rattle.joining.specs.Held.{held_in_64};

mod greatest_at_most;
mod sum_at_least;
mod sum_at_most;
mod totals;

pub use greatest_at_most::GreatestAtMost;
pub use sum_at_least::SumAtLeast;
pub use sum_at_most::SumAtMost;
pub use totals::total;

// A search asks of a joining only its laws, so another one can be supplied.
pub trait Joining {
    // The joining meant: unit, rule and order.
    ghost rule: { Rule };

    // The total of no amounts.
    ghost UNIT: { ℤ };

    const UNIT: i64;

    // That constant is the joining's unit.
    ghost unit: { UNIT ≡ rule.unit };

    // Two amounts joined, held within 64 bits.
    fn join(a: i64, b: i64) -> i64
        ensures { result ≡ held_in_64 (rule.join a b) };

    // Whether the first of two totals is worse.
    fn is_worse(a: i64, b: i64) -> bool
        ensures { result ≡ rule.worse a b };

    // Every joining keeps the laws.
    ghost kept: { Laws rule };
}

#[cfg(test)]
mod tests {
    use super::*;
    use rules::AMOUNT_REACH;
    use std::process::Abort;

    const REACH: i64 = AMOUNT_REACH as i64;

    // The two kinds that add differ in their order only.
    fn check_sums<J: Joining>(rt: &impl Abort) {
        assert_eq!(rt; J::UNIT, 0);
        assert_eq!(rt; J::join(J::UNIT, -7), -7);
        assert_eq!(rt; J::join(-3, -7), -10);
        assert_eq!(rt; J::join(REACH, REACH), 2 * REACH);
        assert_eq!(rt; J::join(-REACH, -REACH), -2 * REACH);
        assert_eq!(rt; J::join(REACH, -REACH), 0);
        assert_eq!(rt; J::join(i64::MAX, 1), i64::MAX);
        assert_eq!(rt; J::join(i64::MIN, -1), i64::MIN);
        assert_eq!(rt; J::join(i64::MAX, i64::MIN), -1);
    }

    #[test]
    fn sums(rt: HostRuntime) {
        check_sums::<SumAtMost>(&rt);
        check_sums::<SumAtLeast>(&rt);
    }

    #[test]
    fn greatest(rt: HostRuntime) {
        assert_eq!(rt; GreatestAtMost::UNIT, -REACH);
        assert_eq!(rt; GreatestAtMost::join(-REACH, -REACH), -REACH);
        assert_eq!(rt;
            GreatestAtMost::join(GreatestAtMost::UNIT, 1 - REACH),
            1 - REACH
        );
        assert_eq!(rt; GreatestAtMost::join(REACH, REACH - 1), REACH);
        assert_eq!(rt; GreatestAtMost::join(-3, -7), -3);
        assert_eq!(rt; GreatestAtMost::join(-7, -3), -3);
        assert_eq!(rt; GreatestAtMost::join(i64::MAX, i64::MIN), i64::MAX);
    }

    #[test]
    fn worse(rt: HostRuntime) {
        assert!(rt; !SumAtMost::is_worse(5, 5));
        assert!(rt; SumAtMost::is_worse(6, 5));
        assert!(rt; !SumAtMost::is_worse(5, 6));
        assert!(rt; !SumAtLeast::is_worse(5, 5));
        assert!(rt; !SumAtLeast::is_worse(6, 5));
        assert!(rt; SumAtLeast::is_worse(5, 6));
        assert!(rt; !GreatestAtMost::is_worse(-5, -5));
        assert!(rt; GreatestAtMost::is_worse(-5, -6));
        assert!(rt; !GreatestAtMost::is_worse(-6, -5));
    }
}
