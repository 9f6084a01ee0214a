// What every choice comes to at some limits: taken from the program that tries them all, whose answer is judged by what was drawn.
use crate::catalogues::check_catalogue;
use crate::jobs::{Drawn, Mixed};
use crate::limits::Limits;
use anyhow::{Context, Result, ensure};
use exhaustive::cheapest;
use rules::MOST_PLACES;

// A job with its catalogue.
#[derive(Drop)]
pub(crate) struct Judge<'a> {
    pub(crate) job: &'a Drawn,
    catalogue: Mixed<'a>,
}

impl<'a> Judge<'a> {
    pub(crate) fn of(job: &'a Drawn) -> Result<Judge<'a>> {
        let catalogue = job.catalogue()?;
        check_catalogue(job, &catalogue)?;
        Ok(Judge { job, catalogue })
    }

    // Whether a choice keeps the limits and costs what is said.
    pub(crate) fn check_choice(
        &self,
        limits: &Limits,
        versions: &[u8; MOST_PLACES],
        price: i64,
    ) -> Result<()> {
        ensure!(
            self.job.keeps(versions, limits),
            "{versions:?} breaks a limit of {limits:?}"
        );
        let total = self.job.total(0, versions);
        ensure!(
            total == Some(price),
            "{versions:?} costs {total:?} and not {price}"
        );
        Ok(())
    }

    // Holds a least price against a choice: where it keeps the limits, it isn't cheaper. Whether it keeps them.
    pub(crate) fn check_other(
        &self,
        limits: &Limits,
        least: Option<i64>,
        versions: &[u8; MOST_PLACES],
    ) -> Result<bool> {
        if !self.job.keeps(versions, limits) {
            return Ok(false);
        }
        let price = self.job.total(0, versions).context("no price")?;
        ensure!(
            least.is_some_and(|least| least <= price),
            "{versions:?} keeps {limits:?} at {price}, and the least is {least:?}"
        );
        Ok(true)
    }

    // What is said of limits by trying every choice, judged by the choice that is named.
    fn told(&self, limits: &Limits) -> Result<Option<i64>> {
        let sheet = self.job.sheet_at(limits).context("limits of no sheet")?;
        let Some(found) = cheapest(&sheet, &self.catalogue)? else {
            return Ok(None);
        };
        self.check_choice(limits, &found.versions, found.price)?;
        Ok(Some(found.price))
    }

    // The least price at which a choice keeps the limits, if one does. What is common to all that search here, as the joinings are, would
    // not tell a choice that all refuse: so the middle one is tried.
    pub(crate) fn least(&self, limits: &Limits) -> Result<Option<i64>> {
        let least = self.told(limits)?;
        self.check_other(limits, least, &self.job.middle)?;
        Ok(least)
    }
}
