// Calls, and which one is made next.
use crate::draws::Draw;
use crate::jobs::Drawn;
use crate::limits::draw_around;
use crate::made::Made;
use crate::models::Model;
use rules::{GREATEST_LIMIT, MOST_STEPS, Request};

// A call, or a record that asks for none.
#[derive(Clone, Copy, Debug)]
pub(crate) enum Call {
    Change(u8, i32),
    Clear,
    Search,
    Run(i32),
    Close,
    Nothing(Request),
}

const LIMIT: i32 = GREATEST_LIMIT as i32;

const STEPS: i64 = MOST_STEPS as i64;

// What the record of a call asks.
fn request(code: u8, row: u8, number: i32) -> Request {
    Request { code, row, number }
}

impl Call {
    // The same call as a record.
    pub(crate) fn request(self) -> Request {
        match self {
            Call::Change(row, limit) => request(1, row, limit),
            Call::Clear => request(2, 0, 0),
            Call::Search => request(3, 0, 0),
            Call::Run(budget) => request(4, 0, budget),
            Call::Close => request(5, 0, 0),
            Call::Nothing(request) => request,
        }
    }

    // The code of a call, 0 for a record that asks for none.
    pub(crate) fn code(self) -> usize {
        match self {
            Call::Nothing(_) => 0,
            call => usize::from(call.request().code),
        }
    }

    // The next call on a job.
    pub(crate) fn draw(job: &Drawn, model: &Model, draw: &mut Draw) -> Call {
        match &model.running {
            None => draw_on_closed(job, model, draw),
            Some(made) => draw_in_search(job, made, draw),
        }
    }
}

// A record with a code that there isn't, or with a part that isn't 0 and that its code does not use.
fn draw_nothing(draw: &mut Draw) -> Call {
    let row = draw.byte(1, u8::MAX);
    let number = draw.between(1, i32::MAX).saturating_neg();
    Call::Nothing(match draw.below(5) {
        0 => request(0, 0, 0),
        1 => request(draw.byte(6, u8::MAX), row, number),
        2 => request(draw.byte(2, 5), row, 0),
        3 => request(draw.byte(2, 3), 0, number),
        _ => request(5, 0, number),
    })
}

// A limit around what a choice comes to in a row, mostly the middle one.
fn draw_limit(job: &Drawn, draw: &mut Draw, row: u8) -> i64 {
    let versions = if draw.one_in(4) {
        job.draw_choice(draw)
    } else {
        job.middle
    };
    let total = job.total(row, &versions).unwrap_or(0);
    draw_around(draw, job.kind(row), total)
}

// A limit anywhere, or at the end of what is taken.
fn draw_far(draw: &mut Draw) -> i32 {
    match draw.below(4) {
        0 => LIMIT,
        1 => -LIMIT,
        _ => draw.between(-LIMIT, LIMIT),
    }
}

// A limit change that is taken; one of the cap is often right around the least price that was found last.
fn draw_change(job: &Drawn, model: &Model, draw: &mut Draw) -> Call {
    let row = draw.byte(0, job.sheet.last_row);
    let near = if row == 0 { model.least } else { None };
    let limit = match (near, draw.below(8)) {
        (_, 0) => i64::from(draw_far(draw)),
        (Some(price), 1..=4) => price.saturating_add(i64::from(draw.between(-1, 1))),
        _ => draw_limit(job, draw, row),
    };
    let limit = i32::try_from(limit).unwrap_or(0);
    Call::Change(row, limit.clamp(-LIMIT, LIMIT))
}

// A limit beyond the bounds.
fn draw_beyond(draw: &mut Draw) -> i32 {
    match draw.below(4) {
        0 => LIMIT + 1,
        1 => -LIMIT - 1,
        2 => i32::MAX,
        _ => i32::MIN,
    }
}

// A limit change that is refused, on a row above the last, or on any row with a limit beyond.
fn draw_refused_change(job: &Drawn, draw: &mut Draw) -> Call {
    let last_row = job.sheet.last_row;
    let above = last_row.saturating_add(1);
    match draw.below(4) {
        0 => Call::Change(above, 0),
        1 => Call::Change(draw.byte(above, u8::MAX), draw_beyond(draw)),
        _ => Call::Change(draw.byte(0, last_row), draw_beyond(draw)),
    }
}

fn draw_on_closed(job: &Drawn, model: &Model, draw: &mut Draw) -> Call {
    match draw.below(24) {
        0 => Call::Clear,
        1 => draw_nothing(draw),
        2 => draw_refused_change(job, draw),
        3 => Call::Run(draw.between(-1, 5)),
        4 => Call::Close,
        5..=12 => draw_change(job, model, draw),
        _ => Call::Search,
    }
}

// A budget that is taken, whatever steps the search has made.
fn draw_budget(made: &Made, draw: &mut Draw) -> Call {
    let left = STEPS.saturating_sub(i64::from(made.most));
    let budget = match draw.below(12) {
        0..=2 => i64::from(draw.between(0, 12)),
        3..=5 => i64::from(draw.between(0, 100)),
        6 => left,
        _ => 20_000,
    };
    Call::Run(i32::try_from(budget.min(left)).unwrap_or(0))
}

// A budget that is refused, whatever steps the search has made.
fn draw_refused_budget(made: &Made, draw: &mut Draw) -> Call {
    let left = STEPS.saturating_sub(i64::from(made.least));
    Call::Run(match draw.below(5) {
        0 => -1,
        1 => i32::MIN,
        2 => i32::MAX,
        _ => i32::try_from(left.saturating_add(1)).unwrap_or(i32::MAX),
    })
}

// A call that only a closed job allows, sound or not.
fn draw_for_closed(job: &Drawn, draw: &mut Draw) -> Call {
    match draw.below(4) {
        0 => Call::Clear,
        1 => Call::Search,
        2 => Call::Change(0, 0),
        _ => draw_refused_change(job, draw),
    }
}

// A close, or mostly a run where none was made.
fn draw_close(made: &Made, draw: &mut Draw) -> Call {
    if made.most == 0 && !draw.one_in(4) {
        draw_budget(made, draw)
    } else {
        Call::Close
    }
}

fn draw_in_search(job: &Drawn, made: &Made, draw: &mut Draw) -> Call {
    match draw.below(20) {
        0 => draw_nothing(draw),
        1 => draw_refused_budget(made, draw),
        2 => draw_for_closed(job, draw),
        3..=11 => draw_budget(made, draw),
        _ => draw_close(made, draw),
    }
}
