// The report of a job.
ghost use Rattle.std.specs.Prelude.{◌≡◌, ◌++◌, MatchResult};
ghost use Rattle.rules.specs.Settings.{setting};
ghost use Rattle.rules.specs.Records.{all_answered};
ghost use Rattle.chooser.specs.States.{kept_of};
ghost use Rattle.report.specs.Reports.{calls_text, job_line};
ghost use Rattle.report.specs.Pages.{fitting};
ghost use Rattle.report.specs.Answers.{Reported, Unaltered, report_answer};

use crate::page::{Page, REPORT_BUFFER};
use catalogue::Catalogue;
use chooser::{ClosedJob, Job};
use rules::{CallRecord, Fault, Refusal, Sheet};

// A report tells of at most so many call records.
pub const MOST_REPORTED: usize = 256;

// Carries out call records on a job, and writes their lines behind the first line.
fn page_of<C: Catalogue + Drop>(sheet: &Sheet, job: Job<C>, records: &mut [CallRecord]) -> Page
    ensures records { records.new ≡ all_answered (setting (C.Catalogue.meaning job.catalogue) job.sheet) (kept_of job) records.old }
    ensures text { result.bytes.items ≡ fitting (job_line sheet.now ++ calls_text (C.Catalogue.meaning job.catalogue) job.sheet (kept_of job) 1 records.old) }
{
    let mut page = Page::blank();
    page.put_job(sheet);
    page.put_calls(job, records);
    page
}

// Opens a job for a list of call records, carries them out, and writes the report of it to the front of a buffer; answers
// its length. With a fault of the opening, a buffer that may be too short or too many records, nothing is altered.
pub fn report<C: Catalogue + Drop>(
    sheet: Sheet,
    catalogue: C,
    records: &mut [CallRecord],
    out: &mut [u8],
) -> Result<usize, Fault>
    ensures told { result ≡ report_answer (C.Catalogue.meaning catalogue) sheet records.old out.old }
    ensures done { MatchResult result (λ n. Reported (C.Catalogue.meaning catalogue) sheet records.old out.old n records.new out.new) (λ f. Unaltered records.old out.old records.new out.new) }
{
    let job = ClosedJob::open(sheet, catalogue);
    if let Some(fault) = job.fault() {
        return Err(fault);
    }
    if out.len() < REPORT_BUFFER {
        return Err(Fault::from(Refusal::BufferTooShort));
    }
    if records.len() > MOST_REPORTED {
        return Err(Fault::from(Refusal::NoCall));
    }
    let page = page_of(&sheet, job.into_job(), records);
    let text = page.text();
    out[..text.len()].copy_from_slice(text);
    Ok(text.len())
}
