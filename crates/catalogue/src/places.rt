// What the catalogues made place by place have in common: of a place, its count of versions alone.
ghost use Rattle.std.specs.Prelude.{◌≡◌, ◌-◌, ◌<◌, ◌≤◌, length, MatchOption};
ghost use Rattle.std.specs.List.{HoldsAt};
ghost use Rattle.rules.specs.declared.refusals.Refusal.TheVariants.{CountOutside};
ghost use Rattle.rules.specs.Refusals.{done_if};
ghost use Rattle.catalogue.specs.Places.{allowed_rows};

use rules::{MOST_ROWS, Refusal};

// A catalogue can have that many rows, or they are refused.
pub(crate) fn check_rows(rows: u8) -> Result<(), Refusal>
    ensures { result ≡ done_if (allowed_rows rows) CountOutside }
{
    if !(1..=MOST_ROWS).contains(&usize::from(rows)) {
        return Err(Refusal::CountOutside);
    }
    Ok(())
}

// The item of a number, from 1 up, if there is one.
pub(crate) fn numbered<T>(items: &[T], number: u8) -> Option<&T>
    ensures { MatchOption result (1 ≤ number → length items.now < number) (λ item. (1 ≤ number) × (number ≤ length items.now) × HoldsAt (λ x. x ≡ item.now) items.now (number - 1)) }
{
    items.get(usize::from(number).checked_sub(1)?)
}
