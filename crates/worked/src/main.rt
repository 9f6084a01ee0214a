// Takes one job that is built in through two limits on standby by trying every choice, and prints what it did.
#![tactic(auto)]

use anyhow::Context;
use catalogue::{Beside, Catalogue, Ladder, Rung};
use exhaustive::cheapest;
use rules::{GREATEST_ROW, Kind, MOST_PLACES, MOST_ROWS, Refusal, Row, Sheet};
use shown::{AnswerText, CatalogueText};
use std::io;

// The job has the rows price and standby, and a phone and a battery of two versions each.
const ROWS: u8 = 2;

const VERSIONS: u8 = 2;

// The versions (90, -20) and (60, -50).
const PHONE_PRICE: Rung = Rung {
    base: 90,
    step: -30,
};

const PHONE_STANDBY: Rung = Rung {
    base: -20,
    step: -30,
};

// The versions (75, 180) and (40, 100).
const BATTERY_PRICE: Rung = Rung {
    base: 75,
    step: -35,
};

const BATTERY_STANDBY: Rung = Rung {
    base: 180,
    step: -80,
};

const CAP: i32 = 1000;

// The least standby that is asked for, and a later one.
const STANDBY: i32 = 60;

const LATER_STANDBY: i32 = 50;

// A catalogue of one place.
fn one_place(price: Rung, standby: Rung) -> Result<Ladder, Refusal> {
    let mut ladder = Ladder::new(ROWS)?;
    let mut rungs = [Rung::default(); MOST_ROWS];
    rungs[0] = price;
    rungs[1] = standby;
    ladder.add(VERSIONS, rungs)?;
    Ok(ladder)
}

// A sheet for two places that asks for at least so much standby.
fn sheet(standby: i32) -> Sheet {
    let mut rows = [Row::default(); GREATEST_ROW];
    rows[0] = Row {
        kind: Kind::SumAtLeast.number(),
        limit: standby,
    };
    let mut order = [0; MOST_PLACES];
    order[0] = 1;
    order[1] = 2;
    Sheet {
        places: 2,
        last_row: 1,
        cap: CAP,
        rows,
        order,
    }
}

// The limits of a sheet, and the cheapest choice that keeps them.
fn print_answer<C: Catalogue>(rt: &impl Print, sheet: &Sheet, catalogue: &C) -> io::Result<()> {
    let cap = sheet.cap;
    let standby = sheet.rows[0].limit;
    println!(rt; "LIMITS {cap} {standby}")?;
    let places = sheet.places;
    let answer = cheapest(sheet, catalogue);
    println!(rt; "{}", AnswerText { places, answer })
}

// The job, and its answers at the two limits on standby.
fn run(rt: &impl Print) -> anyhow::Result<()> {
    let phone = one_place(PHONE_PRICE, PHONE_STANDBY).context("no catalogue of the phone")?;
    let battery = one_place(BATTERY_PRICE, BATTERY_STANDBY).context("no catalogue of the battery")?;
    let catalogue = Beside::new(phone, battery);
    println!(rt; "JOB 2 1")?;
    print!(rt; "{}", CatalogueText(&catalogue))?;
    for standby in [STANDBY, LATER_STANDBY] {
        print_answer(rt, &sheet(standby), &catalogue)?;
    }
    Ok(())
}

fn main(rt: HostRuntime) -> anyhow::Result<()> {
    run(&rt)
}
