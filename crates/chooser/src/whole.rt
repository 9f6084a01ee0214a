// The whole way: a sheet and a catalogue, a list of call records, and the job that they lead to.
ghost use Rattle.std.specs.Prelude.{◌≡◌, []};
ghost use Rattle.rules.specs.Records.{work_records, work_job, Lawful};
ghost use Rattle.chooser.specs.States.{kept_of};

use crate::closed::ClosedJob;
use catalogue::Catalogue;
use rules::{CallRecord, Sheet};

// Opens a job with a sheet and a catalogue, and takes a list of call records on it. What is promised of this job and these answers is
// all that the rules promise: `Lawful`.
pub fn choose<C: Catalogue>(sheet: Sheet, catalogue: C, records: &mut [CallRecord]) -> ClosedJob<C>
    ensures records { records.new ≡ work_records (C.Catalogue.meaning catalogue) sheet records.old }
    ensures job { kept_of result.job ≡ work_job (C.Catalogue.meaning catalogue) sheet records.old }
    ensures sheet { result.job.sheet ≡ sheet }
    ensures catalogue { result.job.catalogue ≡ catalogue }
    ensures lawful { Lawful (C.Catalogue.meaning catalogue) sheet [] records.new (kept_of result.job) }
{
    ClosedJob::open(sheet, catalogue).play(records)
}
