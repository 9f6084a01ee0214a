// The lines of a job and of its call records.
ghost use Rattle.std.specs.Prelude.{◌≡◌};
ghost use Rattle.rules.specs.Settings.{setting};
ghost use Rattle.rules.specs.KeptJobs.{seen_of};
ghost use Rattle.rules.specs.Records.{all_answered, closed_job};
ghost use Rattle.chooser.specs.States.{kept_of};
ghost use Rattle.report.specs.Reports.{answer_text, call_line, calls_text, closing_text, job_line, verdict_text};
ghost use Rattle.report.specs.Writing.{Puts, Recorded};

use crate::page::Page;
use catalogue::Catalogue;
use chooser::Job;
use rules::{CallRecord, Sheet};

impl Page {
    // Writes the first line of a report.
    pub(crate) fn put_job(&mut self, sheet: &Sheet)
        ensures { Puts self.old (job_line sheet.now) self.new }
    {
        self.put_number("JOB ", sheet.places);
        self.put_number(" ", sheet.last_row);
        self.put("\n");
    }

    // Carries out call records on a job, and writes their lines; a search that is still running after the last is closed,
    // and its verdict ends the text.
    pub(crate) fn put_calls<C: Catalogue + Drop>(
        &mut self,
        mut job: Job<C>,
        records: &mut [CallRecord],
    )
        ensures records { records.new ≡ all_answered (setting (C.Catalogue.meaning job.catalogue) job.sheet) (kept_of job) records.old }
        ensures text { Puts self.old (calls_text (C.Catalogue.meaning job.catalogue) job.sheet (kept_of job) 1 records.old) self.new }
    {
        for (index, record) in records.iter_mut().enumerate() {
            self.put_record(&mut job, index + 1, record);
        }
        self.put_end(job);
    }

    // Carries out a record, and writes its line; where a search is closed by it, the verdict comes right behind.
    fn put_record<C: Catalogue>(&mut self, job: &mut Job<C>, number: usize, call: &mut CallRecord)
        ensures sheet { job.new.sheet ≡ job.old.sheet }
        ensures catalogue { job.new.catalogue ≡ job.old.catalogue }
        ensures done { Recorded (C.Catalogue.meaning job.old.catalogue) job.old.sheet (kept_of job.old) number call.old call.new (kept_of job.new) self.old self.new }
    {
        let was_running = job.is_running();
        let answer = job.take(call.request);
        call.answer = answer;
        self.put_call(number, answer);
        if was_running {
            self.put_verdict(job);
        }
    }

    // Closes a search that is still running, and writes the verdict on it.
    fn put_end<C: Catalogue + Drop>(&mut self, job: Job<C>)
        ensures { let m = C.Catalogue.meaning job.catalogue in let s = job.sheet in Puts self.old (closing_text m s (kept_of job) (closed_job (setting m s) (kept_of job))) self.new }
    {
        let running = job.is_running();
        let closed = job.closed().into_job();
        if running {
            self.put_verdict(&closed);
        }
    }

    // Writes the line of a record.
    fn put_call(&mut self, number: usize, answer: u8)
        ensures { Puts self.old (call_line number answer) self.new }
    {
        self.put_number("CALL ", number);
        self.put(" ");
        self.put_answer(answer);
        self.put("\n");
    }

    // Writes what stands for an answer.
    fn put_answer(&mut self, answer: u8)
        ensures { Puts self.old (answer_text answer) self.new }
    {
        match answer {
            0 => self.put("OK"),
            _ => self.put_number("REFUSED ", answer),
        }
    }

    // Writes the verdict that a job carries, if it is closed and carries one.
    fn put_verdict<C: Catalogue>(&mut self, job: &Job<C>)
        ensures { Puts self.old (verdict_text (C.Catalogue.meaning job.now.catalogue) job.now.sheet (seen_of job.now.sheet (kept_of job.now))) self.new }
    {
        let Some(closed) = job.as_closed() else {
            return;
        };
        if let Ok(Some(seen)) = closed.verdict() {
            self.put_seen(&seen);
        }
    }
}
