// The library as a C or C++ program calls it: numbers and byte slices, and an area of 32 bytes for the answer's four words. The archive
// florinwick_c exports these functions.
#![tactic(auto)]

pub mod appends;
pub mod cursor;
pub mod list;
pub mod named;
pub mod record;
pub mod recorded;
pub mod words;

ghost use Rattle.std.specs.Prelude.{◌≡◌, length};
ghost use Rattle.store.specs.Page.{page};
ghost use Rattle.store.specs.Record.{extent_of};
ghost use Rattle.answer.specs.Table.{fetch_words, check_words, held_words};
ghost use Rattle.rules.specs.Entry.{insert_reply, initialise_reply};
ghost use Rattle.rules.specs.Store.{fetch_answer};
ghost use Rattle.rules.specs.Calls.{check_call, held_call};
ghost use Rattle.florinwick.specs.Record.{record_in};
ghost use Rattle.florinwick.specs.Words.{Replied, AreaReplied, need_of};

use answer::Flaw;
use store::PageId;

// Inserts a batch at a root, which is 2^64-1 for none.
pub fn florinwick_insert(
    store: &mut [u8],
    heap: &[u8],
    recorded: &[u8],
    root: u64,
    batch: &[u8],
    scratch: &mut [u8],
    area: &mut [u8],
) -> u64
    ensures { Replied result store.new area.new (insert_reply (record_in recorded.now) store.old heap.now (length scratch.old) (page root) batch.now area.old) }
{
    let Some(area) = area.as_mut_array() else {
        return words::NO_AREA;
    };
    let stored = recorded::record_in(recorded);
    let a = entry::insert(store, stored, PageId(root), batch, scratch, heap);
    words::tell(area, PageId(root), a)
}

// Makes a new tree of a batch in any order.
pub fn florinwick_initialise(
    store: &mut [u8],
    heap: &[u8],
    recorded: &[u8],
    batch: &[u8],
    scratch: &mut [u8],
    area: &mut [u8],
) -> u64
    ensures { Replied result store.new area.new (initialise_reply (record_in recorded.now) store.old heap.now (length scratch.old) batch.now area.old) }
{
    let Some(area) = area.as_mut_array() else {
        return words::NO_AREA;
    };
    let stored = recorded::record_in(recorded);
    let a = entry::initialise(store, stored, batch, scratch, heap);
    words::tell(area, PageId::max(), a)
}

// How many bytes of scratch a call needs; 0 for a page size that is not known.
pub fn florinwick_scratch_need(size: u64) -> u64
    ensures { result ≡ need_of size }
{
    let c = store::capacity_of(size);
    if c == 0 {
        return 0;
    }
    entry::check::need_for(c) as u64
}

// Why a fetch is refused, or 0: the page is then the part of the store at id times size.
pub fn florinwick_fetch(store: &[u8], recorded: &[u8], id: u64, area: &mut [u8]) -> u64
    ensures { AreaReplied result area.old area.new (fetch_words (fetch_answer (extent_of (record_in recorded.now)) store.now (page id))) }
{
    let Some(area) = area.as_mut_array() else {
        return words::NO_AREA;
    };
    let stored = recorded::record_in(recorded);
    match memory_store::fetch_refusal(store, stored.extent(), PageId(id)) {
        Ok(()) => words::plain(area, 0),
        Err(refusal) => words::refuse(area, 0, refusal),
    }
}

// Whether the tree under a root is sound: 0, or 33 with the first fault and its page.
pub fn florinwick_check(
    store: &[u8],
    heap: &[u8],
    recorded: &[u8],
    root: u64,
    area: &mut [u8],
) -> u64
    ensures { AreaReplied result area.old area.new (check_words (page root) (check_call (record_in recorded.now) store.now heap.now (page root))) }
{
    let Some(area) = area.as_mut_array() else {
        return words::NO_AREA;
    };
    let stored = recorded::record_in(recorded);
    match invariants::check(store, stored, PageId(root), heap) {
        Ok(()) => words::plain(area, 0),
        Err(Flaw::Unsound(page, fault)) => {
            words::put_words(area, words::UNSOUND, 0, fault.number(), page.0);
            words::UNSOUND
        }
        Err(Flaw::Refused(refusal)) => words::refuse(area, root, refusal),
    }
}

// Whether the tree under a root holds all datoms of a batch: 0, or 16 with the index of the first that it does not hold.
pub fn florinwick_held(
    store: &[u8],
    heap: &[u8],
    recorded: &[u8],
    root: u64,
    batch: &[u8],
    area: &mut [u8],
) -> u64
    ensures { AreaReplied result area.old area.new (held_words (page root) (held_call (record_in recorded.now) store.now heap.now (page root) batch.now)) }
{
    let Some(area) = area.as_mut_array() else {
        return words::NO_AREA;
    };
    let stored = recorded::record_in(recorded);
    match held::held(store, stored, PageId(root), batch, heap) {
        Ok(()) => words::plain(area, 0),
        Err(refusal) => words::refuse_named(area, root, refusal),
    }
}
