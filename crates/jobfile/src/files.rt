// Job files, from bytes to jobs.
ghost use Rattle.std.specs.Prelude.{◌≡◌, IfOk};
ghost use Rattle.jobfile.specs.Jobs.{RightlyRead, says};
ghost use Rattle.jobfile.specs.Sound.{Tables};
ghost use Rattle.jobfile.specs.Reading.{read as what_is_read};

use crate::bounds::MOST_BYTES;
use crate::checks::fault_at;
use crate::job::Job;
use crate::reader::Reader;
use rules::{Fault, Refusal};

// What a file says, or the first fault in it.
fn read_whole(file: &[u8]) -> Result<Job, Fault>
    ensures job { says file.now result ≡ what_is_read file.now }
    ensures tables { IfOk result (Tables file.now) }
{
    if file.len() > MOST_BYTES {
        return Err(fault_at(Refusal::FileTooLong, MOST_BYTES as u16));
    }
    let mut reader = Reader::new(file);
    reader.read_fields()?;
    reader.finish()
}

// The job that a file states; a file that states none is sent back with the first fault in it.
pub fn read(file: &[u8]) -> Result<Job, Fault>
    ensures job { says file.now result ≡ what_is_read file.now }
    ensures right { RightlyRead file.now result }
{
    read_whole(file)
}
