// The heap of constants, after heap.rs of the Rust: what stands at an offset, and whether it is a constant. The heap is lent as the
// bytes in use; nothing here is written.
#![tactic(auto)]

ghost use Rattle.std.specs.Prelude.{◌≡◌, ◌+◌, ◌≤◌, false, length, take};
ghost use Rattle.heap.specs.Constant.{bad_heap, word_there, bytes_there, integer_at, bytes_at, valid_int, padded, valid_str};

// Integers below this one have an inline form. It is `datom::Value::TAG_EXTERNAL` too, of a crate above this one.
pub const LEAST_INTEGER: u64 = 0x4000_0000_0000_0000;

// Byte strings shorter than this have one.
pub const LEAST_LENGTH: u64 = 8;

// Whether so many used bytes of a heap's slice are more than it has, or no whole words. The number is beside the slice for the C interface:
// include/florinwick.h lends a whole heap and how much of it is used.
pub fn is_bad(heap: &[u8], used: u64) -> bool
    ensures { result ≡ bad_heap used heap.now }
{
    if (heap.len() as u64) < used {
        return true;
    }
    used % 8 != 0
}

// The bytes in use.
pub fn used_of(heap: &[u8], used: u64) -> &[u8]
    requires { bad_heap used heap.now ≡ false }
    ensures { result.now ≡ take used heap.now }
{
    &heap[0..used as usize]
}

// Whether the eight bytes from `offset` on are there.
pub fn has_word(heap: &[u8], offset: u64) -> bool
    ensures { result ≡ word_there heap.now offset }
{
    let end = heap.len() as u64;
    if end < 8 {
        return false;
    }
    offset <= end - 8
}

// Whether a length word stands at `offset` and the bytes that it counts behind it.
pub fn has_bytes(heap: &[u8], offset: u64) -> bool
    ensures { result ≡ bytes_there heap.now offset }
{
    if !has_word(heap, offset) {
        return false;
    }
    let n = store::word(heap, offset as usize);
    n <= heap.len() as u64 - offset - 8
}

// The integer at `offset`.
pub fn get_u64(heap: &[u8], offset: u64) -> u64
    ensures { result ≡ integer_at heap.now offset }
{
    if !has_word(heap, offset) {
        return 0;
    }
    store::word(heap, offset as usize)
}

// The byte string at `offset`, a part of the heap.
pub fn get_bytes(heap: &[u8], offset: u64) -> &[u8]
    ensures { result.now ≡ bytes_at heap.now offset }
{
    if !has_bytes(heap, offset) {
        return &heap[0..0];
    }
    let at = offset as usize + 8;
    let n = store::word(heap, offset as usize) as usize;
    &heap[at..at + n]
}

// Whether an integer constant stands at `offset`.
pub fn is_u64_at(heap: &[u8], offset: u64) -> bool
    ensures { result ≡ valid_int heap.now offset }
{
    if offset % 8 != 0 {
        return false;
    }
    if !has_word(heap, offset) {
        return false;
    }
    LEAST_INTEGER <= store::word(heap, offset as usize)
}

// Whether zeros up to a multiple of 8 stand behind the n bytes that end at byte `at`. They are the high bytes of the last word.
fn is_padded(heap: &[u8], at: usize, n: usize) -> bool
    requires { (n ≤ at) × (at ≤ length heap.now) }
    ensures { result ≡ padded heap.now at n }
{
    let over = n % 8;
    if over == 0 {
        return true;
    }
    if heap.len() - at < 8 - over {
        return false;
    }
    store::word(heap, at - over) >> (8 * over as u64) == 0
}

// Whether a byte string constant stands at `offset`.
pub fn is_bytes_at(heap: &[u8], offset: u64) -> bool
    ensures { result ≡ valid_str heap.now offset }
{
    if offset % 8 != 0 {
        return false;
    }
    if !has_bytes(heap, offset) {
        return false;
    }
    let n = store::word(heap, offset as usize);
    if n < LEAST_LENGTH {
        return false;
    }
    is_padded(heap, offset as usize + 8 + n as usize, n as usize)
}
