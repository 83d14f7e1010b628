// Listing as a C or C++ program calls it: the cursor stays in 264 bytes of the caller's between the calls.
ghost use Rattle.std.specs.Prelude.{◌≡◌, length};
ghost use Rattle.store.specs.Page.{page};
ghost use Rattle.answer.specs.Table.{start_words, step_words};
ghost use Rattle.florinwick.specs.Record.{record_in};
ghost use Rattle.florinwick.specs.Words.{WordsIn};
ghost use Rattle.florinwick.specs.Listing.{start_bounded, start_bytes, start_in, cursor_started, step_in, cursor_stepped, datom_stepped, Begins, Steps};

use crate::{cursor, recorded, words};
use answer::{Refusal, Started, Stepped};
use store::{PageId, StoreRecord};

// A bound that is not 32 bytes long is none.
fn start_bounded(
    store: &[u8],
    stored: StoreRecord,
    root: PageId,
    lower: &[u8],
    upper: &[u8],
    heap: &[u8],
) -> Started
    ensures { result ≡ start_bounded stored store.now heap.now root lower.now upper.now }
{
    if lower.len() != 32 {
        return listing::begin::refused(Refusal::BadBound);
    }
    if upper.len() != 32 {
        return listing::begin::refused(Refusal::BadBound);
    }
    let from = datom::datom_at(lower, 0);
    let to = datom::datom_at(upper, 0);
    listing::begin::start(store, stored, root, from, to, heap)
}

// The record's own refusals come before those of the bounds.
fn start_between(
    store: &[u8],
    stored: StoreRecord,
    root: PageId,
    lower: &[u8],
    upper: &[u8],
    heap: &[u8],
) -> Started
    ensures { result ≡ start_bytes stored store.now heap.now root lower.now upper.now }
{
    let bad = memory_store::is_bad(store, stored.extent());
    match ordered::order_in(stored, bad, heap) {
        Err(refusal) => listing::begin::refused(refusal),
        Ok(_) => start_bounded(store, stored, root, lower, upper, heap),
    }
}

// A cursor that has begun goes to its area; a refused start leaves it.
fn keep_start(
    cursor: &mut [u8; cursor::BYTES],
    area: &mut [u8; words::AREA],
    root: u64,
    started: Started,
) -> u64
    ensures { ((result ≡ (start_words (page root) started.answer).number) × WordsIn (start_words (page root) started.answer) area.new) × (cursor.new ≡ cursor_started cursor.old started) }
{
    let answer = started.answer;
    let begun = started.cursor;
    match answer {
        Ok(()) => {
            cursor::put_cursor(cursor, begun);
            words::plain(area, 0)
        }
        Err(refusal) => words::refuse_named(area, root, refusal),
    }
}

// Begins to list the datoms under a root, from the lower bound on and below the upper.
pub fn florinwick_list_start(
    store: &[u8],
    heap: &[u8],
    recorded: &[u8],
    root: u64,
    lower: &[u8],
    upper: &[u8],
    cursor: &mut [u8],
    area: &mut [u8],
) -> u64
    ensures { Begins result area.old area.new cursor.old cursor.new (page root) (start_in (record_in recorded.now) store.now heap.now (page root) lower.now upper.now cursor.old) }
{
    let Some(area) = area.as_mut_array() else {
        return words::NO_AREA;
    };
    let Some(cursor) = cursor.as_mut_array() else {
        return words::refuse(area, root, Refusal::BadStore);
    };
    let stored = recorded::record_in(recorded);
    let started = start_between(store, stored, PageId(root), lower, upper, heap);
    keep_start(cursor, area, root, started)
}

// A datom that is yielded goes to its area and the cursor behind it; a step that has ended or is refused leaves both.
fn keep_step(
    cursor: &mut [u8; cursor::BYTES],
    datom: &mut [u8; words::AREA],
    area: &mut [u8; words::AREA],
    stepped: Stepped,
) -> u64
    ensures { ((result ≡ (step_words stepped.answer).number) × WordsIn (step_words stepped.answer) area.new) × ((cursor.new ≡ cursor_stepped cursor.old stepped) × (datom.new ≡ datom_stepped datom.old stepped)) }
{
    let answer = stepped.answer;
    let next = stepped.cursor;
    match answer {
        Ok(Some(d)) => {
            cursor::put_cursor(cursor, next);
            words::put_words(
                datom,
                d.entity.0,
                d.attribute.0,
                d.value.0,
                d.transaction_operation.0,
            );
            words::plain(area, 0)
        }
        Ok(None) => words::plain(area, words::ENDED),
        Err(refusal) => words::refuse_named(area, 0, refusal),
    }
}

// Hands out the next datom of a listing: 0, or 32 where it has ended.
pub fn florinwick_list_step(
    store: &[u8],
    heap: &[u8],
    recorded: &[u8],
    cursor: &mut [u8],
    datom: &mut [u8],
    area: &mut [u8],
) -> u64
    ensures { Steps result area.old area.new cursor.old cursor.new datom.old datom.new (step_in (record_in recorded.now) store.now heap.now cursor.old datom.old) }
{
    let Some(area) = area.as_mut_array() else {
        return words::NO_AREA;
    };
    let Some(cursor) = cursor.as_mut_array() else {
        return words::refuse(area, 0, Refusal::BadStore);
    };
    let Some(datom) = datom.as_mut_array() else {
        return words::refuse(area, 0, Refusal::BadStore);
    };
    let stored = recorded::record_in(recorded);
    let given = cursor::cursor_in(cursor);
    let stepped = listing::step::step(store, stored, given, heap);
    keep_step(cursor, datom, area, stepped)
}
