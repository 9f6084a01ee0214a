// What is said of a search, by place.
ghost use Rattle.std.specs.Prelude.{◌≡◌, ◌≤◌};
ghost use Rattle.rules.specs.Bounds.{most_places};
ghost use Rattle.rules.specs.Settings.{by_place, told, seen};
ghost use Rattle.search.specs.Parts.{part_of};
ghost use Rattle.search.specs.Findings.{finding_with, verdict_with};
ghost use Rattle.chooser.specs.Verdicts.{price_asked, PricesAsked, told_of, seen_in};

use crate::verdicts::places::{by_place, closing_ground};
use crate::verdicts::{Choice, Seen, Told};
use catalogue::Catalogue;
use joining::{SumAtMost, total};
use rules::Sheet;
use search::{Finding, Part, Verdict};

// A choice by place, with the price that the catalogue tells.
fn choice<C: Catalogue>(sheet: &Sheet, catalogue: &C, part: &Part) -> Choice
    requires few { sheet.now.places ≤ most_places }
    ensures versions { result.versions.items ≡ by_place sheet.now (part_of sheet.now.places part.now) }
    ensures price { result.price ≡ price_asked (C.Catalogue.meaning catalogue.now) sheet.now result.versions.items }
{
    let versions = by_place(sheet, part);
    let price = total::<SumAtMost, C>(catalogue, 0, sheet.places, &versions);
    Choice { price, versions }
}

// What was found, by place.
fn told<C: Catalogue>(sheet: &Sheet, catalogue: &C, finding: &Finding) -> Told
    requires few { sheet.now.places ≤ most_places }
    ensures told { told_of result ≡ told sheet.now (finding_with sheet.now.places finding.now) }
    ensures prices { PricesAsked (C.Catalogue.meaning catalogue.now) sheet.now result }
{
    let named = |part: &Part| choice(sheet, catalogue, part);
    match finding {
        Finding::Least(part, closing) => Told::Least(named(part), closing_ground(closing)),
        Finding::Nothing(closing) => Told::Nothing(closing_ground(closing)),
        Finding::Filled(best) => Told::Full(best.as_ref().map(named)),
        Finding::Unfinished(best) => Told::Unfinished(best.as_ref().map(named)),
    }
}

// The verdict on a search, by place.
pub(crate) fn seen<C: Catalogue>(sheet: &Sheet, catalogue: &C, verdict: &Verdict) -> Seen
    requires few { sheet.now.places ≤ most_places }
    ensures seen { seen_in result ≡ seen sheet.now (verdict_with sheet.now.places verdict.now) }
    ensures prices { PricesAsked (C.Catalogue.meaning catalogue.now) sheet.now result.says }
{
    Seen {
        says: told(sheet, catalogue, &verdict.finding),
        steps: verdict.steps,
        held: verdict.held,
    }
}
