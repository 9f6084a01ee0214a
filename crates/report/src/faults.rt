// The line of a fault.
ghost use Rattle.std.specs.Prelude.{◌≡◌, ◌+◌, ◌≤◌, ◌++◌, length, IfOk};
ghost use Rattle.arrayvec.specs.ArrayString.{array_string_len};
ghost use Rattle.report.specs.Buffers.{buffer_after, write_answer};
ghost use Rattle.report.specs.FaultLines.{fault_buffer, fault_line};

use arrayvec::ArrayString;
use itoa::{Buffer, Integer};
use rules::{Fault, Refusal};

// A fault is written into a buffer of at least so many bytes, and its line is never longer.
pub const FAULT_BUFFER: usize = 64;

// Puts a word and then a number behind a line that has room for both. (`write!` would say what the line is only on Ok.)
fn put<I: Integer>(line: &mut ArrayString<FAULT_BUFFER>, word: &str, number: I)
    requires { array_string_len line.old + length word.now + I.MAX_STR_LEN ≤ fault_buffer }
    ensures text { line.new.bytes ≡ line.old.bytes ++ word.now ++ I.text number }
    ensures bound { array_string_len line.new ≤ array_string_len line.old + length word.now + I.MAX_STR_LEN }
{
    line.push_str(word);
    line.push_str(Buffer::new().format(number));
}

// The line of a fault.
pub fn fault_line(fault: &Fault) -> ArrayString<FAULT_BUFFER>
    ensures text { result.bytes ≡ fault_line fault.now }
    ensures bound { array_string_len result ≤ fault_buffer }
{
    let mut line = ArrayString::new();
    put(&mut line, "REFUSED ", fault.number);
    put(&mut line, " LAYER ", fault.layer);
    put(&mut line, " AT ", fault.byte);
    put(&mut line, " PLACE ", fault.place);
    put(&mut line, " VERSION ", fault.version);
    put(&mut line, " ROW ", fault.row);
    line.push_str("\n");
    line
}

// Writes the line of a fault to the front of a buffer, and answers its length; a buffer that has fewer bytes than are
// wanted is refused, and stays as it was.
pub fn write_fault(fault: &Fault, out: &mut [u8]) -> Result<usize, Fault>
    ensures answer { result ≡ write_answer fault_buffer (fault_line fault.now) out.old }
    ensures written { out.new ≡ buffer_after fault_buffer (fault_line fault.now) out.old }
    ensures fits { IfOk result (λ n. n ≤ fault_buffer) }
{
    if out.len() < FAULT_BUFFER {
        return Err(Fault::from(Refusal::BufferTooShort));
    }
    let line = fault_line(fault);
    out[..line.len()].copy_from_slice(line.as_bytes());
    Ok(line.len())
}
