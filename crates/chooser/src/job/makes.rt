// How a job makes a call.
ghost use Rattle.std.specs.Prelude.{◌≡◌};
ghost use Rattle.rules.specs.Settings.{setting};
ghost use Rattle.rules.specs.KeptJobs.{told_on, job_by};
ghost use Rattle.chooser.specs.Models.{made_told};
ghost use Rattle.chooser.specs.Requests.{call_of, turned};
ghost use Rattle.chooser.specs.States.{kept_of};

use crate::job::Job;
use crate::opened::Made;
use crate::requests::Call;
use catalogue::Catalogue;
use rules::Fault;

impl<C: Catalogue> Job<C> {
    // Makes a call. A fault of the opening is told before all else, and alters nothing but whether a search is running.
    pub(crate) fn make(&mut self, call: Call) -> Result<Made, Fault>
        ensures told { made_told result ≡ told_on (setting (C.Catalogue.meaning self.old.catalogue) self.old.sheet) (kept_of self.old) (call_of call) }
        ensures job { kept_of self.new ≡ job_by (setting (C.Catalogue.meaning self.old.catalogue) self.old.sheet) (kept_of self.old) (call_of call) }
        ensures running { self.new.running ≡ turned self.old.running (call_of call) }
        ensures sheet { self.new.sheet ≡ self.old.sheet }
        ensures catalogue { self.new.catalogue ≡ self.old.catalogue }
    {
        let running = self.running;
        self.running = call.turned(running);
        match &mut self.opened {
            Ok(opened) => Ok(opened.make(running, call)?),
            Err(fault) => Err(*fault),
        }
    }
}
