// The appends to the heap of constants. Document 02, Two: "a lent slice growing by 8-byte words". They take its length, the bytes that are
// used, as a number, for one heap may serve several stores. They are two functions, as C has no other way to say which kind is appended.
ghost use Rattle.rules.specs.Append.{append_word, append_text};
ghost use Rattle.florinwick.specs.Append.{HeapReplied};

use crate::words;

// Appends an integer that has no inline form, one of 2^62 or more.
pub fn florinwick_append_u64(heap: &mut [u8], used: u64, value: u64, area: &mut [u8]) -> u64
    ensures { HeapReplied result area.old area.new heap.old heap.new used (append_word heap.old used value) }
{
    let Some(area) = area.as_mut_array() else {
        return words::NO_AREA;
    };
    let a = append::append_u64(heap, used, value);
    words::tell_append(area, a)
}

// Appends a byte string that has no inline form, one of 8 bytes or more.
pub fn florinwick_append_bytes(heap: &mut [u8], used: u64, bytes: &[u8], area: &mut [u8]) -> u64
    ensures { HeapReplied result area.old area.new heap.old heap.new used (append_text heap.old used bytes.now) }
{
    let Some(area) = area.as_mut_array() else {
        return words::NO_AREA;
    };
    let a = append::append_bytes(heap, used, bytes);
    words::tell_append(area, a)
}
