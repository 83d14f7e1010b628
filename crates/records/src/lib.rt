// The record entry: a batch as a slice of datom records, which are laid as bytes for the byte entry.
#![tactic(auto)]

ghost use Rattle.std.specs.Prelude.{◌≡◌, ◌+◌, ◌*◌, ◌≤◌, length};
ghost use Rattle.store.specs.Words.{patch};
ghost use Rattle.datom.specs.Datom.{datom_bytes, WordSized};
ghost use Rattle.rules.specs.Calls.{extent_of, insert_call, initialise_call, insert_bytes_call, initialise_bytes_call};
ghost use Rattle.entry.specs.Reply.{Replies};
ghost use Rattle.records.specs.Laid.{laid_count, Laid, first_of};
ghost use Rattle.records.specs.Handed.{handed_length, handed_in, handed_bytes};

use answer::{Done, Refusal};
use datom::Datom;
use store::{PageId, StoreRecord};

// How many bytes a batch of one record too many has: no batch is handed on with more.
const HANDED: usize = 32 * (batch::MOST + 1);

// How many of n records are laid into so many bytes: all of them, or none of a batch that is refused without a look at it.
fn laid_count(n: usize, room: usize) -> usize
    ensures { result ≡ laid_count n room }
{
    if batch::MOST < n {
        return 0;
    }
    if room < 32 * n {
        return 0;
    }
    n
}

// A datom's bytes, as number i of an area of datoms. Of a record that was read from a slice only this call tells that its words are words.
fn put_datom(area: &mut [u8], i: usize, d: Datom)
    requires { 32 * i + 32 ≤ length area.old }
    ensures laid { area.new ≡ patch area.old (32 * i) (datom_bytes d) }
    ensures sized { WordSized d }
{
    let at = 32 * i;
    store::put_word(area, at, d.entity.0);
    store::put_word(area, at + 8, d.attribute.0);
    store::put_word(area, at + 16, d.value.0);
    store::put_word(area, at + 24, d.transaction_operation.0);
}

// The first n records of a slice, in order, from the front of the area on. The slice has n records, unless they are too many to be laid.
fn lay_first(records: &[Datom], n: usize, area: &mut [u8])
    requires { n ≤ 128 → n ≤ length records.now }
    ensures { Laid (first_of n records.now) area.new }
{
    for i in 0..laid_count(n, area.len()) {
        put_datom(area, i, records[i]);
    }
}

// The records of a batch. Nothing is said of the rest of the area: it is scratch.
pub fn lay(batch: &[Datom], area: &mut [u8])
    ensures { Laid batch.now area.new }
{
    lay_first(batch, batch.len(), area);
}

// How many bytes the byte entry is handed for n records. Over 128 of them are handed on as 129: it refuses these in its own order.
fn handed_length(n: usize) -> usize
    ensures { result ≡ handed_length n }
{
    if batch::MOST < n {
        return HANDED;
    }
    32 * n
}

// The records that `lay` has laid go into an array of their own, since the byte entry gets the scratch to write in.
fn hand(b: &mut [u8], n: usize, s: &[u8])
    requires { 4096 ≤ length b.old }
    ensures { b.new ≡ handed_in n s.now b.old }
{
    let k = 32 * laid_count(n, s.len());
    store::put(b, 0, &s[..k]);
}

// Inserts the n records that `lay` has seen at the front of the scratch. What it shares with `initialise_laid` is `hand` and
// `handed_length`; a closure for the call would have to say what it does to the store and the scratch.
pub fn insert_laid(
    store: &mut [u8],
    recorded: StoreRecord,
    root: PageId,
    n: usize,
    s: &mut [u8],
    heap: &[u8],
) -> Result<Done, Refusal>
    ensures { Replies (extent_of recorded) store.old store.new result (insert_bytes_call recorded store.old heap.now (length s.old) root (handed_bytes n s.old)) }
{
    let mut b = [0u8; HANDED];
    hand(&mut b, n, s);
    let m = handed_length(n);
    entry::insert(store, recorded, root, &b[..m], s, heap)
}

// Inserts a batch of records at a root.
pub fn insert(
    store: &mut [u8],
    recorded: StoreRecord,
    root: PageId,
    batch: &[Datom],
    s: &mut [u8],
    heap: &[u8],
) -> Result<Done, Refusal>
    ensures { Replies (extent_of recorded) store.old store.new result (insert_call recorded store.old heap.now (length s.old) root batch.now) }
{
    lay(batch, s);
    insert_laid(store, recorded, root, batch.len(), s, heap)
}

// Makes a new tree of the n records that `lay` has seen at the front of the scratch.
fn initialise_laid(
    store: &mut [u8],
    recorded: StoreRecord,
    n: usize,
    s: &mut [u8],
    heap: &[u8],
) -> Result<Done, Refusal>
    ensures { Replies (extent_of recorded) store.old store.new result (initialise_bytes_call recorded store.old heap.now (length s.old) (handed_bytes n s.old)) }
{
    let mut b = [0u8; HANDED];
    hand(&mut b, n, s);
    let m = handed_length(n);
    entry::initialise(store, recorded, &b[..m], s, heap)
}

// Makes a new tree of a batch of records in any order.
pub fn initialise(
    store: &mut [u8],
    recorded: StoreRecord,
    batch: &[Datom],
    s: &mut [u8],
    heap: &[u8],
) -> Result<Done, Refusal>
    ensures { Replies (extent_of recorded) store.old store.new result (initialise_call recorded store.old heap.now (length s.old) batch.now) }
{
    lay(batch, s);
    initialise_laid(store, recorded, batch.len(), s, heap)
}

// Inserts the first n records of an array at a root. Its signature has no reference to a record: a function that calls it is covered.
pub fn insert_array(
    store: &mut [u8],
    recorded: StoreRecord,
    root: PageId,
    batch: [Datom; batch::MOST],
    n: usize,
    s: &mut [u8],
    heap: &[u8],
) -> Result<Done, Refusal>
    ensures { Replies (extent_of recorded) store.old store.new result (insert_call recorded store.old heap.now (length s.old) root (first_of n batch)) }
{
    lay_first(&batch, n, s);
    insert_laid(store, recorded, root, n, s, heap)
}
