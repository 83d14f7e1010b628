// The insert that tells the fault. Document 02, One: "the replicator's four words stay", so it is a call of its own.
ghost use Rattle.std.specs.Prelude.{length};
ghost use Rattle.store.specs.Page.{page};
ghost use Rattle.rules.specs.Entry.{insert_named_reply};
ghost use Rattle.florinwick.specs.Record.{record_in};
ghost use Rattle.florinwick.specs.Words.{Replied};

use crate::{recorded, words};
use store::PageId;

// Inserts a batch at a root as `florinwick_insert` does; where it answers 7, the third word has the fault's number.
pub fn florinwick_insert_named(
    store: &mut [u8],
    heap: &[u8],
    recorded: &[u8],
    root: u64,
    batch: &[u8],
    scratch: &mut [u8],
    area: &mut [u8],
) -> u64
    ensures { Replied result store.new area.new (insert_named_reply (record_in recorded.now) store.old heap.now (length scratch.old) (page root) batch.now area.old) }
{
    let Some(area) = area.as_mut_array() else {
        return words::NO_AREA;
    };
    let stored = recorded::record_in(recorded);
    let a = entry::insert(store, stored, PageId(root), batch, scratch, heap);
    words::tell_named(area, PageId(root), a)
}
