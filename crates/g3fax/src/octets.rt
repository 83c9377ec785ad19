//! Octets that calls have made, for C.

ghost use Rattle.g3fax.specs.Handles.{Copies, OfOctets, OfOctetsAt};
ghost use Rattle.std.specs.Prelude.{◌≡◌, ◌≢◌, length};

use crate::handle::{G3Handle, opened};
use crate::status::{NO_ROOM, OK};
use std::alloc::Global;

/// Copies octets to the beginning of a buffer, and tells how many they are. Returns 103 if the buffer is too small.
pub(crate) fn copy_out(octets: &[u8], buffer: &mut [u8], count: &mut u64) -> u32
    ensures { Copies octets.now buffer.old buffer.new count.new result }
{
    *count = octets.len() as u64;
    if octets.len() > buffer.len() {
        return NO_ROOM;
    }
    buffer[..octets.len()].copy_from_slice(octets);
    OK
}

/// Tells how many octets a handle has.
#[unsafe(no_mangle)]
pub extern "C" fn g3_core_octets_len(alloc: Global, octets: &mut G3Handle, count: &mut u64) -> u32
    ensures answers { OfOctets (λ octets. (result ≡ 0) × (count.new ≡ length octets)) octets.old.value result }
    ensures kept { octets.new.value ≡ octets.old.value }
    ensures untold { result ≢ 0 → count.new ≡ count.old }
{
    opened!(alloc, octets, Octets, octets => {
            *count = octets.len() as u64;
            OK
        })
}

/// Tells the address of the octets of a handle, and how many they are. The address is right until the handle changes: nothing is copied.
#[unsafe(no_mangle)]
pub extern "C" fn g3_core_octets_data(
    alloc: Global,
    octets: &mut G3Handle,
    address: &mut *const u8,
    count: &mut u64,
) -> u32
    ensures answers { OfOctetsAt (λ at octets. (result ≡ 0) × (address.new ≡ at) × (count.new ≡ length octets)) octets.old.value result }
    ensures kept { octets.new.value ≡ octets.old.value }
    ensures untold { result ≢ 0 → (address.new ≡ address.old) × (count.new ≡ count.old) }
{
    opened!(alloc, octets, Octets, octets => {
            *address = octets.as_ptr();
            *count = octets.len() as u64;
            OK
        })
}

/// Copies the octets of a handle to the beginning of a buffer, and tells how many they are; what follows in the buffer stays. Returns
/// `G3_NO_ROOM` (103) if the buffer is too small, and it stays.
#[unsafe(no_mangle)]
pub extern "C" fn g3_core_octets_copy(
    alloc: Global,
    octets: &mut G3Handle,
    buffer: &mut [u8],
    count: &mut u64,
) -> u32
    ensures answers { OfOctets (λ octets. Copies octets buffer.old buffer.new count.new result) octets.old.value result }
    ensures kept { octets.new.value ≡ octets.old.value }
    ensures buffer { result ≢ 0 → buffer.new ≡ buffer.old }
{
    opened!(alloc, octets, Octets, octets => copy_out(octets, buffer, count))
}
