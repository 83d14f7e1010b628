// What is checked before anything is written, in the order of the refusals.
ghost use Rattle.std.specs.Prelude.{◌||◌, ◌≡◌, ◌*◌, ◌≤◌, length};
ghost use Rattle.store.specs.Size.{most_datoms, room_for, scratch_need};
ghost use Rattle.datom.specs.Datom.{datoms_of};
ghost use Rattle.index.specs.Order.{ord, order_in};
ghost use Rattle.index.specs.declared.Index.{Index};
ghost use Rattle.rules.specs.Store.{bad_store, bad_scratch};
ghost use Rattle.rules.specs.Insert.{word_fault};
ghost use Rattle.batch.specs.Finding.{finding_of};
ghost use Rattle.entry.specs.Checks.{count_for, insert_fault, initialise_fault};

use answer::Refusal;
use index::Order;
use store::Extent;

// How many datoms a node in the scratch has room for.
pub fn room_for(c: usize) -> usize
    requires { c ≤ most_datoms }
    ensures { result ≡ room_for c }
{
    8 * c + batch::MOST
}

// How many bytes of scratch a call needs.
pub fn need_for(c: usize) -> usize
    requires { c ≤ most_datoms }
    ensures { result ≡ scratch_need c }
{
    let m = room_for(c);
    8 * (40 * m + 8) + 32 * m
}

// Refusal 1: pages that are not as the record says, or scratch that is too short.
pub fn is_bad(store: &[u8], extent: Extent, scratch: usize) -> bool
    ensures { result ≡ (bad_store extent store.now || bad_scratch extent scratch) }
{
    if memory_store::is_bad(store, extent) {
        return true;
    }
    scratch < need_for(store::capacity_of(extent.size))
}

// Refusals 1 and 2, or how many datoms the batch has.
pub fn count_of(store: &[u8], extent: Extent, b: &[u8], scratch: usize) -> Result<usize, Refusal>
    ensures { result ≡ count_for extent store.now scratch b.now }
{
    if is_bad(store, extent, scratch) {
        return Err(Refusal::BadStore);
    }
    batch::count_of(b)
}

// Refusals 3 and 11, each of the whole batch, in any order.
fn word_fault(b: &[u8], n: usize, heap: &[u8]) -> Result<(), Refusal>
    requires { 32 * n ≤ length b.now }
    ensures { (i : Index) → finding_of result ≡ word_fault (order_in i heap.now) (datoms_of n b.now) }
{
    batch::form_fault(b, n)?;
    batch::constant_fault(b, n, heap)
}

// Refusals 3, 11 and 4 of an insert.
pub fn insert_fault(b: &[u8], n: usize, order: Order) -> Result<(), Refusal>
    requires { 32 * n ≤ length b.now }
    ensures { finding_of result ≡ insert_fault (ord order.entry) (datoms_of n b.now) }
{
    word_fault(b, n, order.heap)?;
    batch::order_fault(b, n, order)
}

// Refusals 3, 11 and 4 of an initialise.
pub fn initialise_fault(b: &[u8], n: usize, order: Order) -> Result<(), Refusal>
    requires { 32 * n ≤ length b.now }
    ensures { finding_of result ≡ initialise_fault (ord order.entry) (datoms_of n b.now) }
{
    word_fault(b, n, order.heap)?;
    batch::twin_fault(b, n, order)
}
