// The record entry as a C or C++ program calls it: with an array of records, each a C struct of four words.
ghost use Rattle.std.specs.Prelude.{◌≡◌, length};
ghost use Rattle.store.specs.Page.{page};
ghost use Rattle.store.specs.Record.{extent_of};
ghost use Rattle.rules.specs.Entry.{insert_reply, reply};
ghost use Rattle.rules.specs.Calls.{insert_call};
ghost use Rattle.records.specs.Handed.{handed_bytes};
ghost use Rattle.florinwick.specs.Record.{record_in};
ghost use Rattle.florinwick.specs.Words.{Replied};

use crate::{recorded, words};
use datom::Datom;
use store::PageId;

// Inserts the n records that `records::lay` has seen at the front of the scratch.
fn insert_laid(
    store: &mut [u8],
    heap: &[u8],
    recorded: &[u8],
    root: u64,
    n: usize,
    scratch: &mut [u8],
    area: &mut [u8],
) -> u64
    ensures { Replied result store.new area.new (insert_reply (record_in recorded.now) store.old heap.now (length scratch.old) (page root) (handed_bytes n scratch.old) area.old) }
{
    let Some(area) = area.as_mut_array() else {
        return words::NO_AREA;
    };
    let stored = recorded::record_in(recorded);
    let a = records::insert_laid(store, stored, PageId(root), n, scratch, heap);
    words::tell(area, PageId(root), a)
}

// Inserts a batch of records at a root, which is 2^64-1 for none.
pub fn florinwick_insert_records(
    store: &mut [u8],
    heap: &[u8],
    recorded: &[u8],
    root: u64,
    batch: &[Datom],
    scratch: &mut [u8],
    area: &mut [u8],
) -> u64
    ensures { Replied result store.new area.new (reply (extent_of (record_in recorded.now)) store.old area.old (page root) (insert_call (record_in recorded.now) store.old heap.now (length scratch.old) (page root) batch.now)) }
{
    records::lay(batch, scratch);
    insert_laid(store, heap, recorded, root, batch.len(), scratch, area)
}
