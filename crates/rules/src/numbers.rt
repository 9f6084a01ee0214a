// Numbers in bytes.
ghost use Rattle.std.specs.Prelude.{◌≡◌, slice_index};
ghost use Rattle.rules.specs.Numbers.{number_at};

use std::array;

// The byte at an index; one that there is not counts as 0.
fn byte_at(bytes: &[u8], at: usize) -> u8
    ensures { result ≡ slice_index bytes.now at }
{
    bytes.get(at).copied().unwrap_or(0)
}

// The number at an index behind which there aren't four bytes; apart, so that what is read of whole files stays short.
#[cold]
#[inline(never)]
fn number_past_end(bytes: &[u8], at: usize) -> i32
    ensures { result ≡ number_at bytes.now at }
{
    i32::from_be_bytes(array::from_fn(|i| byte_at(bytes, at.saturating_add(i))))
}

// The signed number in the four bytes from an index on, the most significant first; a byte that there is not counts as 0,
// as the definition has it, so that nothing is asked of callers.
pub fn number_at(bytes: &[u8], at: usize) -> i32
    ensures { result ≡ number_at bytes.now at }
{
    // One test for all four, since every amount of a listed catalogue is read so.
    if bytes.len() < 4 || at > bytes.len() - 4 {
        return number_past_end(bytes, at);
    }
    i32::from_be_bytes([bytes[at], bytes[at + 1], bytes[at + 2], bytes[at + 3]])
}
