// The archive that a C or C++ program links: florinwick's functions under the names that include/florinwick.h declares, each with its
// clauses again. A crate is a library or a static library and not both, so the library, which other crates are built on, is florinwick.
#![tactic(auto)]

ghost use Rattle.std.specs.Prelude.{◌≡◌, length};
ghost use Rattle.store.specs.Page.{page};
ghost use Rattle.store.specs.Record.{extent_of};
ghost use Rattle.answer.specs.Table.{fetch_words, check_words, held_words};
ghost use Rattle.rules.specs.Entry.{insert_reply, initialise_reply, insert_named_reply, reply};
ghost use Rattle.rules.specs.Store.{fetch_answer};
ghost use Rattle.rules.specs.Calls.{check_call, held_call, insert_call};
ghost use Rattle.florinwick.specs.Record.{record_in};
ghost use Rattle.florinwick.specs.Words.{Replied, AreaReplied, need_of};
ghost use Rattle.rules.specs.Append.{append_word, append_text};
ghost use Rattle.florinwick.specs.Append.{HeapReplied};
ghost use Rattle.florinwick.specs.Listing.{start_in, step_in, Begins, Steps};

use datom::Datom;

// How many bytes of scratch a call needs; 0 for a page size that is not known.
#[unsafe(no_mangle)]
pub extern "C" fn florinwick_scratch_need(size: u64) -> u64
    ensures { result ≡ need_of size }
{
    florinwick::florinwick_scratch_need(size)
}

// Makes a new tree of a batch in any order.
#[unsafe(no_mangle)]
pub extern "C" fn florinwick_initialise(
    store: &mut [u8],
    heap: &[u8],
    recorded: &[u8],
    batch: &[u8],
    scratch: &mut [u8],
    area: &mut [u8],
) -> u64
    ensures { Replied result store.new area.new (initialise_reply (record_in recorded.now) store.old heap.now (length scratch.old) batch.now area.old) }
{
    florinwick::florinwick_initialise(store, heap, recorded, batch, scratch, area)
}

// Inserts a batch at a root, which is 2^64-1 for none.
#[unsafe(no_mangle)]
pub extern "C" fn florinwick_insert(
    store: &mut [u8],
    heap: &[u8],
    recorded: &[u8],
    root: u64,
    batch: &[u8],
    scratch: &mut [u8],
    area: &mut [u8],
) -> u64
    ensures { Replied result store.new area.new (insert_reply (record_in recorded.now) store.old heap.now (length scratch.old) (page root) batch.now area.old) }
{
    florinwick::florinwick_insert(store, heap, recorded, root, batch, scratch, area)
}

// Inserts a batch at a root as `florinwick_insert` does; where it answers 7, the third word has the fault's number.
#[unsafe(no_mangle)]
pub extern "C" fn florinwick_insert_named(
    store: &mut [u8],
    heap: &[u8],
    recorded: &[u8],
    root: u64,
    batch: &[u8],
    scratch: &mut [u8],
    area: &mut [u8],
) -> u64
    ensures { Replied result store.new area.new (insert_named_reply (record_in recorded.now) store.old heap.now (length scratch.old) (page root) batch.now area.old) }
{
    florinwick::named::florinwick_insert_named(store, heap, recorded, root, batch, scratch, area)
}

// Inserts a batch of records at a root, which is 2^64-1 for none.
#[unsafe(no_mangle)]
pub extern "C" fn florinwick_insert_records(
    store: &mut [u8],
    heap: &[u8],
    recorded: &[u8],
    root: u64,
    batch: &[Datom],
    scratch: &mut [u8],
    area: &mut [u8],
) -> u64
    ensures { Replied result store.new area.new (reply (extent_of (record_in recorded.now)) store.old area.old (page root) (insert_call (record_in recorded.now) store.old heap.now (length scratch.old) (page root) batch.now)) }
{
    florinwick::record::florinwick_insert_records(store, heap, recorded, root, batch, scratch, area)
}

// Whether the tree under a root holds all datoms of a batch: 0, or 16 with the index of the first that it does not hold.
#[unsafe(no_mangle)]
pub extern "C" fn florinwick_held(
    store: &[u8],
    heap: &[u8],
    recorded: &[u8],
    root: u64,
    batch: &[u8],
    area: &mut [u8],
) -> u64
    ensures { AreaReplied result area.old area.new (held_words (page root) (held_call (record_in recorded.now) store.now heap.now (page root) batch.now)) }
{
    florinwick::florinwick_held(store, heap, recorded, root, batch, area)
}

// Appends an integer that has no inline form, one of 2^62 or more.
#[unsafe(no_mangle)]
pub extern "C" fn florinwick_append_u64(
    heap: &mut [u8],
    used: u64,
    value: u64,
    area: &mut [u8],
) -> u64
    ensures { HeapReplied result area.old area.new heap.old heap.new used (append_word heap.old used value) }
{
    florinwick::appends::florinwick_append_u64(heap, used, value, area)
}

// Appends a byte string that has no inline form, one of 8 bytes or more.
#[unsafe(no_mangle)]
pub extern "C" fn florinwick_append_bytes(
    heap: &mut [u8],
    used: u64,
    bytes: &[u8],
    area: &mut [u8],
) -> u64
    ensures { HeapReplied result area.old area.new heap.old heap.new used (append_text heap.old used bytes.now) }
{
    florinwick::appends::florinwick_append_bytes(heap, used, bytes, area)
}

// Why a fetch is refused, or 0: the page is then the part of the store at id times size.
#[unsafe(no_mangle)]
pub extern "C" fn florinwick_fetch(store: &[u8], recorded: &[u8], id: u64, area: &mut [u8]) -> u64
    ensures { AreaReplied result area.old area.new (fetch_words (fetch_answer (extent_of (record_in recorded.now)) store.now (page id))) }
{
    florinwick::florinwick_fetch(store, recorded, id, area)
}

// Whether the tree under a root is sound: 0, or 33 with the first fault and its page.
#[unsafe(no_mangle)]
pub extern "C" fn florinwick_check(
    store: &[u8],
    heap: &[u8],
    recorded: &[u8],
    root: u64,
    area: &mut [u8],
) -> u64
    ensures { AreaReplied result area.old area.new (check_words (page root) (check_call (record_in recorded.now) store.now heap.now (page root))) }
{
    florinwick::florinwick_check(store, heap, recorded, root, area)
}

// Begins to list the datoms under a root, from the lower bound on and below the upper.
#[unsafe(no_mangle)]
pub extern "C" fn florinwick_list_start(
    store: &[u8],
    heap: &[u8],
    recorded: &[u8],
    root: u64,
    lower: &[u8],
    upper: &[u8],
    cursor: &mut [u8],
    area: &mut [u8],
) -> u64
    ensures { Begins result area.old area.new cursor.old cursor.new (page root) (start_in (record_in recorded.now) store.now heap.now (page root) lower.now upper.now cursor.old) }
{
    florinwick::list::florinwick_list_start(store, heap, recorded, root, lower, upper, cursor, area)
}

// Hands out the next datom of a listing: 0, or 32 where it has ended.
#[unsafe(no_mangle)]
pub extern "C" fn florinwick_list_step(
    store: &[u8],
    heap: &[u8],
    recorded: &[u8],
    cursor: &mut [u8],
    datom: &mut [u8],
    area: &mut [u8],
) -> u64
    ensures { Steps result area.old area.new cursor.old cursor.new datom.old datom.new (step_in (record_in recorded.now) store.now heap.now cursor.old datom.old) }
{
    florinwick::list::florinwick_list_step(store, heap, recorded, cursor, datom, area)
}
