// Lists of calls on a job, each answer and the job after it held against what is expected.
use crate::answers::{Answer, by_call, by_record};
use crate::calls::Call;
use crate::closes::{check_choices, check_verdict};
use crate::counts::Counts;
use crate::draws::Draw;
use crate::grounds::check_lists;
use crate::jobs::{Drawn, Mixed};
use crate::judges::Judge;
use crate::models::{Model, plain_fault};
use crate::said::Said;
use crate::states::{check_closed, check_state, said_by};
use anyhow::{Context, Result, bail, ensure};
use chooser::{ClosedJob, State, choose};
use rules::CallRecord;
use std::alloc::Global;

// So many calls are made on a job, and one more that closes it where a search is running.
const CALLS: u32 = 40;

// The answer of a record before it is played: no call is answered so.
const NO_ANSWER: u8 = u8::MAX;

// A job on which calls are made: what is expected of it, what is drawn, and what was met.
#[derive(Drop)]
struct Trial<'a> {
    judge: Judge<'a>,
    model: Model,
    draw: Draw,
    counts: Counts,
    // The calls so far, with their answers.
    records: Vec<CallRecord>,
}

// Holds an answer against the number that is expected.
fn check_answer(call: Call, answer: Answer, expected: u8) -> Result<()> {
    let number = answer.number;
    ensure!(
        number == expected,
        "{call:?} is answered {number} and not {expected}"
    );
    if let Some(fault) = answer.fault {
        ensure!(
            fault == plain_fault(number),
            "{call:?} is answered {fault:?}"
        );
    }
    Ok(())
}

impl<'a> Trial<'a> {
    // Holds a closing ground, if one is told, against limits at which it stands.
    fn check_closing(&mut self, said: &Said) -> Result<()> {
        let Some(ground) = &said.ground else {
            return Ok(());
        };
        let limits = said.limits_closed(&self.model.limits);
        let lists = check_lists(&self.judge, &mut self.draw, &limits, ground)?;
        self.counts.grounds.add(self.judge.job, ground, lists);
        Ok(())
    }

    // Holds the verdict of a search that was just closed against the runs before it, and against every choice.
    fn check_close(&mut self, job: &State<Mixed<'a>>) -> Result<()> {
        let State::Closed(job) = job else {
            bail!("the job is running after its close");
        };
        let said = said_by(job)?.context("no verdict after a close")?;
        let limits = self.model.limits;
        let least = check_verdict(&self.judge, &limits, &said)?;
        let kept = check_choices(&self.judge, &mut self.draw, &limits, least)?;
        self.counts.verdicts.add(&said, self.model.held, kept);
        self.model.close(&said)?;
        self.model.least = least;
        self.check_closing(&said)
    }

    // Makes a call, by the job's own or by a record, and holds what comes of it against what is expected.
    fn make(
        &mut self,
        job: State<Mixed<'a>>,
        call: Call,
        expected: u8,
    ) -> Result<State<Mixed<'a>>> {
        let (job, answer) = if self.draw.one_in(2) {
            by_record(job, call)
        } else {
            by_call(job, call)
        };
        check_answer(call, answer, expected)?;
        let counts = &mut self.counts.calls;
        counts.add(self.judge.job, &self.model, call, expected);
        match (call, expected) {
            (Call::Close, 0) => self.check_close(&job)?,
            (_, 0) => self.model.take(call, answer.ran)?,
            _ => {}
        }
        check_state(&self.model, &job)?;
        Ok(job)
    }

    // Draws a call and makes it.
    fn make_next(&mut self, job: State<Mixed<'a>>) -> Result<State<Mixed<'a>>> {
        let call = Call::draw(self.judge.job, &self.model, &mut self.draw);
        let answer = self.model.answer(call);
        let request = call.request();
        self.records.push(CallRecord { request, answer })?;
        let made = self.make(job, call, answer);
        made.context(format_args!("call {}", self.records.len()))
    }

    // Opens the job and makes all calls. A search that is running then is closed.
    fn make_all(&mut self) -> Result<()> {
        let drawn = self.judge.job;
        let mut job = State::Closed(ClosedJob::open(drawn.sheet, drawn.catalogue()?));
        check_state(&self.model, &job)?;
        for _ in 0..CALLS {
            job = self.make_next(job)?;
        }
        if self.model.running.is_some() {
            self.make(job, Call::Close, 0).context("the last close")?;
        }
        Ok(())
    }

    // The same calls, as records without an answer.
    fn unanswered(&self, alloc: Global) -> Result<Vec<CallRecord>> {
        let mut records = Vec::new(alloc);
        for record in &self.records {
            records.push(CallRecord {
                answer: NO_ANSWER,
                ..*record
            })?;
        }
        Ok(records)
    }

    // Plays the same calls once more, as one list of records: they lead to the same answers and to the same job.
    fn check_list(&self, alloc: Global) -> Result<()> {
        let drawn = self.judge.job;
        let mut records = self.unanswered(alloc)?;
        let job = choose(drawn.sheet, drawn.catalogue()?, records.as_mut_slice());
        ensure!(
            records.as_slice() == self.records.as_slice(),
            "the list is answered {:?}",
            records.as_slice()
        );
        check_closed(&self.model, &job).context("the list")
    }
}

// Plays a list of calls on a job. What was met so far, and here.
pub(crate) fn play(alloc: Global, job: &Drawn, draw: Draw, counts: Counts) -> Result<Counts> {
    let mut trial = Trial {
        judge: Judge::of(job)?,
        model: Model::of(&job.sheet),
        draw,
        counts,
        records: Vec::new(alloc),
    };
    trial.make_all()?;
    trial.check_list(alloc)?;
    Ok(trial.counts)
}
