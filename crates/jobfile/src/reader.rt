// A reader of job files: how far it has come.
ghost use Rattle.std.specs.Prelude.{◌≡◌, ◌+◌, ◌≤◌, length};
ghost use Rattle.jobfile.specs.Bounds.{most_bytes};
ghost use Rattle.jobfile.specs.Sound.{HoldsIn, Sound};

use crate::fields::Section;
use crate::job::Job;

// The job as far as it is read, and where the next field begins: an index beside the bytes and not the rest of them, since
// faults and listings name a byte of the file.
#[derive(Drop)]
pub(crate) struct Reader<'a> {
    file: &'a [u8],
    at: u16,
    section: Section,
    // A count beside the sheet's rows: a sheet keeps plain tables.
    rows: u8,
    job: Job,
    ghost within: { at ≤ length file.now },
    ghost sound: { Sound file.now rows job },
    ghost holds: { HoldsIn section at rows job },
}

// Where a field ends that begins at a byte: behind its head, of three bytes, and its body.
// Each reader of a body moves on by itself, since only then does what a reader keeps hold again.
fn behind(at: u16, body: &[u8]) -> u16
    requires { at + (3 + length body.now) ≤ most_bytes }
    ensures { result ≡ at + (3 + length body.now) }
{
    at + 3 + body.len() as u16
}

mod fields;
mod files;
mod moves;
mod places;
mod steps;
