// The report of a job file.
ghost use Rattle.std.specs.Prelude.{◌≡◌, ◌≤◌, length, MatchResult};
ghost use Rattle.jobfile.specs.Bounds.{most_calls};
ghost use Rattle.jobfile.specs.Reading.{read as what_is_read};
ghost use Rattle.report.specs.FileReports.{FileReported, NotReported, file_answer, file_buffer, unanswered};

use crate::reports::report;
use arrayvec::ArrayVec;
use jobfile::{Job, MOST_CALLS};
use rules::{CallRecord, Fault, Request};

// Calls as records that have no answers yet.
fn unanswered(calls: &[Request]) -> ArrayVec<CallRecord, MOST_CALLS>
    requires { length calls.now ≤ most_calls }
    ensures { result.items ≡ unanswered calls.now }
{
    let mut records = ArrayVec::new();
    for call in calls {
        records.push(CallRecord {
            request: *call,
            answer: 0,
        });
    }
    records
}

// Writes the report of the job that a file states to the front of a buffer, and answers its length. A file that states
// none is refused with the first fault in it, and after that a buffer that may be too short; the buffer stays then.
pub fn report_file(file: &[u8], out: &mut [u8]) -> Result<usize, Fault>
    ensures told { result ≡ file_answer (what_is_read file.now) out.old }
    ensures written { out.new ≡ file_buffer (what_is_read file.now) out.old }
    ensures done { MatchResult result (λ n. FileReported file.now out.old n out.new) (λ f. NotReported file.now out.old f out.new) }
{
    let Job {
        sheet,
        calls,
        listing,
        ladder,
    } = jobfile::read(file)?;
    let mut records = unanswered(calls.list());
    let catalogue = Job::catalogue(file, listing, ladder);
    report(sheet, catalogue, records.as_mut_slice(), out)
}
