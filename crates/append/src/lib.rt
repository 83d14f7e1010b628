// Appends to the heap of constants, after MemoryHeap of the Rust. The heap is lent as its whole slice, and beside it how many of its bytes
// are used, which is the heap length: those past them are free. So the C interface has it: include/florinwick.h lends a whole heap and how
// much of it is used. The rules stand in rules/specs/Append.antt.
#![tactic(auto)]

ghost use Rattle.std.specs.Prelude.{◌≡◌, ◌+◌, ◌≤◌, length};
ghost use Rattle.heap.specs.Constant.{up_to8};
ghost use Rattle.rules.specs.Append.{heap_full, constant_bytes, bytes_tag, append_constant, append_word, append_text};
ghost use Rattle.append.specs.Answers.{Appends};

use answer::{Refusal, Stored};
use datom::Value;

// The tags of a value that names a constant, 01 and 11 in its two highest bits. The offset has the 62 bits below them.
const INTEGER: u64 = Value::TAG_EXTERNAL;

const BYTES: u64 = Value::TAG_MASK;

// The first offset that does not fit below a tag.
const OFFSETS: u64 = Value::TAG_EXTERNAL;

// Refusal 12, for a word and n bytes behind it. What is free is rounded down where n would be rounded up, since that might not fit a word.
fn is_full(heap: &[u8], used: u64, n: usize) -> bool
    requires { used ≤ length heap.now }
    ensures { result ≡ heap_full heap.now used (8 + up_to8 n) }
{
    if OFFSETS <= used {
        return true;
    }
    let free = (heap.len() - used as usize) / 8 * 8;
    if free < 8 {
        return true;
    }
    free - 8 < n
}

// The heap writer: the one place that stores into a heap. It is lent no more than the bytes of the constant, and stores each of them, the
// padding too, so that they are the same whatever stood there.
fn put_constant(free: &mut [u8], word: u64, bytes: &[u8])
    requires { length free.old ≡ 8 + up_to8 (length bytes.now) }
    ensures { free.new ≡ constant_bytes word bytes.now }
{
    let room = free.len() - 8;
    store::put_word(free, 0, word);
    store::put_padded(free, 8, room, bytes);
}

// A constant of a word and the bytes behind it goes to the heap length, or the append is refused. `inline` says that its content has an
// inline form, so that it belongs on no heap. That and the tag stand beside one another, being arguments of
// `rules/specs/Append.append_constant`, which the contract names.
fn append_constant(
    heap: &mut [u8],
    used: u64,
    inline: bool,
    tag: u64,
    word: u64,
    bytes: &[u8],
) -> Result<Stored, Refusal>
    requires { tag ≤ bytes_tag }
    ensures { Appends heap.old heap.new used result (append_constant heap.old used inline tag (constant_bytes word bytes.now)) }
{
    if heap::is_bad(heap, used) {
        return Err(Refusal::BadStore);
    }
    if inline {
        return Err(Refusal::BadConstant(0));
    }
    if is_full(heap, used, bytes.len()) {
        return Err(Refusal::HeapFull);
    }
    let at = used as usize;
    let need = 8 + (bytes.len() + 7) / 8 * 8;
    put_constant(&mut heap[at..at + need], word, bytes);
    let name = tag + used;
    Ok(Stored {
        value: Value(name),
        bytes: need as u64,
    })
}

// An integer as one word.
pub fn append_u64(heap: &mut [u8], used: u64, value: u64) -> Result<Stored, Refusal>
    ensures { Appends heap.old heap.new used result (append_word heap.old used value) }
{
    let inline = value < heap::LEAST_INTEGER;
    append_constant(heap, used, inline, INTEGER, value, &[])
}

// A byte string as its length word, its bytes, and zeros to a multiple of 8.
pub fn append_bytes(heap: &mut [u8], used: u64, bytes: &[u8]) -> Result<Stored, Refusal>
    ensures { Appends heap.old heap.new used result (append_text heap.old used bytes.now) }
{
    let n = bytes.len() as u64;
    let inline = n < heap::LEAST_LENGTH;
    append_constant(heap, used, inline, BYTES, n, bytes)
}
