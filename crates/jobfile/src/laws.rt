// What is proved of job files.
ghost use Rattle.jobfile.specs.Examples.{FilesHold};
ghost use Rattle.jobfile.specs.Theorems.{LongestLaw, OpensLaw, ReadLaw, RefusedLaw};

// A file is accepted as a job exactly when it states that job.
pub fn read_law()
    ensures { ReadLaw }
{}

// No job has a longer writing than 22,876 bytes.
pub fn longest_law()
    ensures { LongestLaw }
{}

// A file is refused with a fault exactly when it meets the reason that the fault names.
pub fn refused_law()
    ensures { RefusedLaw }
{}

// A job that a file states opens without a fault.
pub fn opens_law()
    ensures { OpensLaw }
{}

// Files are read as the rules say on worked examples.
pub fn worked_files()
    ensures { FilesHold }
{}
