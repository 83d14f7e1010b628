// Whether a tree holds all datoms of a batch, of which Repeated says nothing. Document 02, Ten: "if the tree holds all its datoms". The
// rules stand in rules/specs/Held.antt.
#![tactic(auto)]

ghost use Rattle.std.specs.Prelude.{◌≡◌, ◌*◌, ◌≤◌, length};
ghost use Rattle.datom.specs.Datom.{datoms_of};
ghost use Rattle.index.specs.Order.{ord};
ghost use Rattle.rules.specs.Held.{held_at, held_tree, held_counted, held_bytes};
ghost use Rattle.rules.specs.Calls.{held_call};
ghost use Rattle.memory_store.specs.Pages.{order_of, fetched_from, read_from};
ghost use Rattle.batch.specs.Finding.{finding_of};

use answer::{Damage, Refusal};
use index::Order;
use memory_store::pages::Pages;
use memory_store::reader::Header;
use store::{Extent, PageId, StoreRecord};

// Refusals 16 and 7, at a root that is a page. Its page is read once: the lookups are handed what was found.
fn held_at(pages: &Pages, root: PageId, b: &[u8], n: usize) -> Result<(), Refusal>
    requires { 32 * n ≤ length b.now }
    ensures { finding_of result ≡ held_at (read_from pages.now) root (datoms_of n b.now) (fetched_from pages.now root) }
{
    let read = pages.header(root);
    let Header { level, count } = read.map_err(|fault| Damage { page: root, fault })?;
    lookup::held_all(pages, root, level, count, b, n)
}

// Refusals 16 and 7. No page is read for an empty batch, and none at root "none".
fn held_tree(pages: &Pages, root: PageId, b: &[u8], n: usize) -> Result<(), Refusal>
    requires { 32 * n ≤ length b.now }
    ensures { finding_of result ≡ held_tree (order_of pages.now) pages.now.extent pages.now.store.now root (datoms_of n b.now) }
{
    if n == 0 {
        return Ok(());
    }
    if root.is_none() {
        return Err(Refusal::NotHeld(0));
    }
    held_at(pages, root, b, n)
}

// Refusals 3 to 5 as an insert gives them, then 16 and 7, of a batch of n datoms.
fn held_counted(pages: &Pages, root: PageId, b: &[u8], n: usize) -> Result<(), Refusal>
    requires { 32 * n ≤ length b.now }
    ensures { finding_of result ≡ held_counted (order_of pages.now) pages.now.extent pages.now.store.now root (datoms_of n b.now) }
{
    entry::check::insert_fault(b, n, pages.order)?;
    if memory_store::is_bad_root(pages.extent, root) {
        return Err(Refusal::NoPage);
    }
    held_tree(pages, root, b, n)
}

// Whether the tree under a root holds all datoms of a batch, or why not: the first that it does not hold, or what a call is refused for.
// Nothing is written, so it takes no scratch.
pub fn held_in(
    store: &[u8],
    extent: Extent,
    root: PageId,
    b: &[u8],
    order: Order,
) -> Result<(), Refusal>
    ensures { result ≡ held_bytes (ord order.entry) extent store.now root b.now }
{
    let pages = Pages::in_order(store, extent, order)?;
    let n = batch::count_of(b)?;
    held_counted(&pages, root, b, n)
}

// Whether the tree under a root holds every datom of a batch.
pub fn held(
    store: &[u8],
    recorded: StoreRecord,
    root: PageId,
    b: &[u8],
    heap: &[u8],
) -> Result<(), Refusal>
    ensures { result ≡ held_call recorded store.now heap.now root b.now }
{
    let extent = recorded.extent();
    let bad = memory_store::is_bad(store, extent);
    let by = ordered::order_in(recorded, bad, heap)?;
    let used = heap::used_of(heap, recorded.heap);
    let order = Order { by, heap: used };
    held_in(store, extent, root, b, order)
}
