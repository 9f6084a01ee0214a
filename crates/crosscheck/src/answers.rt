// How calls are made on a job: by its own calls, or by records.
use crate::calls::Call;
use catalogue::Catalogue;
use chooser::{ClosedJob, RunningJob, State};
use rules::Fault;
use search::Ran;

// What a call was answered: 0 or the number of a refusal, and what more its own call tells.
#[derive(Clone, Copy)]
pub(crate) struct Answer {
    pub(crate) number: u8,
    pub(crate) fault: Option<Fault>,
    pub(crate) ran: Option<Ran>,
}

// The answer of a call that tells nothing but whether it was taken.
fn answer_of(told: Result<(), Fault>) -> Answer {
    let fault = told.err();
    Answer {
        number: fault.map_or(0, |fault| fault.number),
        fault,
        ran: None,
    }
}

// The answer of a run.
fn run_answer(told: Result<Ran, Fault>) -> Answer {
    match told {
        Ok(ran) => Answer {
            number: 0,
            fault: None,
            ran: Some(ran),
        },
        Err(fault) => answer_of(Err(fault)),
    }
}

// Makes a call by a record.
pub(crate) fn by_record<C: Catalogue>(job: State<C>, call: Call) -> (State<C>, Answer) {
    let mut job = match job {
        State::Closed(job) => job.into_job(),
        State::Running(job) => job.into_job(),
    };
    let number = job.take(call.request());
    let answer = Answer {
        number,
        fault: None,
        ran: None,
    };
    (job.state(), answer)
}

fn on_closed<C: Catalogue>(mut job: ClosedJob<C>, call: Call) -> (State<C>, Answer) {
    match call {
        Call::Change(row, limit) => {
            let answer = answer_of(job.change_limit(row, limit));
            (State::Closed(job), answer)
        }
        Call::Clear => {
            let answer = answer_of(job.clear());
            (State::Closed(job), answer)
        }
        Call::Search => {
            let (job, told) = job.search();
            (State::Running(job), answer_of(told))
        }
        Call::Run(_) | Call::Close | Call::Nothing(_) => by_record(State::Closed(job), call),
    }
}

fn on_running<C: Catalogue>(mut job: RunningJob<C>, call: Call) -> (State<C>, Answer) {
    match call {
        Call::Run(budget) => {
            let answer = run_answer(job.run(budget));
            (State::Running(job), answer)
        }
        Call::Close => {
            let (job, told) = job.close();
            (State::Closed(job), answer_of(told))
        }
        Call::Change(..) | Call::Clear | Call::Search | Call::Nothing(_) => {
            by_record(State::Running(job), call)
        }
    }
}

// Makes a call by the job's own, or by a record where its state has no such call.
pub(crate) fn by_call<C: Catalogue>(job: State<C>, call: Call) -> (State<C>, Answer) {
    match job {
        State::Closed(job) => on_closed(job, call),
        State::Running(job) => on_running(job, call),
    }
}
