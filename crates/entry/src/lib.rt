// The entries: a batch of bytes goes in whole or not at all.
#![tactic(auto)]

pub mod check;
pub mod write;

ghost use Rattle.std.specs.Prelude.{true, ◌≡◌, length};
ghost use Rattle.datom.specs.Datom.{datoms_of};
ghost use Rattle.index.specs.Order.{ord};
ghost use Rattle.rules.specs.Page.{rising};
ghost use Rattle.rules.specs.Store.{fetch_page, env_of};
ghost use Rattle.rules.specs.Insert.{insert_at, insert_counted, initialise_counted, insert_bytes, initialise_bytes};
ghost use Rattle.rules.specs.Calls.{extent_of, insert_bytes_call, initialise_bytes_call};
ghost use Rattle.entry.specs.Reply.{Replies, answer_of};
ghost use Rattle.entry.specs.Checks.{Passed};

use answer::{Damage, Done, Refusal};
use htree::place::Failed;
use htree::root::Rooted;
use index::Order;
use memory_store::pages::Pages;
use memory_store::reader::Header;
use store::{Extent, PageId, StoreRecord};

// The answer, of what was written.
fn answer_of(r: Result<Rooted, Failed>) -> Result<Done, Refusal>
    ensures { result ≡ answer_of r }
{
    let rooted = r?;
    Ok(Done {
        root: rooted.root,
        pages: rooted.written,
    })
}

// Refusals 6 to 9, of a batch that ascends, at a root that is a page. The root's page is read once: the lookup and the insert are handed
// what was found.
fn insert_at(
    store: &mut [u8],
    extent: Extent,
    c: usize,
    root: PageId,
    b: &[u8],
    n: usize,
    s: &mut [u8],
    order: Order,
) -> Result<Done, Refusal>
    requires { Passed extent store.old c b.now n (length s.old) × (rising (ord order).cmp (datoms_of n b.now) ≡ true) }
    ensures { Replies extent store.old store.new result (insert_at (env_of (ord order.entry) extent store.old) root (datoms_of n b.now) (fetch_page (ord order.entry) extent store.old root)) }
{
    let pages = Pages::new(store, extent, order);
    let read = pages.header(root);
    let Header { level, count } = read.map_err(|fault| Damage { page: root, fault })?;
    lookup::lookup_all(&pages, root, level, count, b, n)?;
    answer_of(write::under(store, extent, c, root, level, count, b, n, s, order))
}

// Refusals 3 to 9, of a batch of n datoms.
fn insert_counted(
    store: &mut [u8],
    extent: Extent,
    c: usize,
    root: PageId,
    b: &[u8],
    n: usize,
    s: &mut [u8],
    order: Order,
) -> Result<Done, Refusal>
    requires { Passed extent store.old c b.now n (length s.old) }
    ensures { Replies extent store.old store.new result (insert_counted (ord order.entry) extent store.old root (datoms_of n b.now)) }
{
    check::insert_fault(b, n, order)?;
    if memory_store::is_bad_root(extent, root) {
        return Err(Refusal::NoPage);
    }
    if root.is_none() {
        return answer_of(write::fresh(store, extent, c, b, n, s));
    }
    insert_at(store, extent, c, root, b, n, s, order)
}

// Inserts a batch at a root. Nothing is written unless the whole batch may go in.
pub fn insert_in(
    store: &mut [u8],
    extent: Extent,
    root: PageId,
    b: &[u8],
    s: &mut [u8],
    order: Order,
) -> Result<Done, Refusal>
    ensures { Replies extent store.old store.new result (insert_bytes (ord order.entry) extent store.old (length s.old) root b.now) }
{
    let n = check::count_of(store, extent, b, s.len())?;
    let c = store::capacity_of(extent.size);
    insert_counted(store, extent, c, root, b, n, s, order)
}

// Refusals 3 to 9 of an initialise, of a batch of n datoms.
fn initialise_counted(
    store: &mut [u8],
    extent: Extent,
    c: usize,
    b: &[u8],
    n: usize,
    s: &mut [u8],
    order: Order,
) -> Result<Done, Refusal>
    requires { Passed extent store.old c b.now n (length s.old) }
    ensures { Replies extent store.old store.new result (initialise_counted (ord order.entry) extent store.old (datoms_of n b.now)) }
{
    check::initialise_fault(b, n, order)?;
    answer_of(write::sorted(store, extent, c, b, n, s, order))
}

// Makes a new tree of a batch in any order. It reads no page. With `insert_in` it shares the first two lines: one function of the rest as a closure
// would have to say what that does to two lent slices.
pub fn initialise_in(
    store: &mut [u8],
    extent: Extent,
    b: &[u8],
    s: &mut [u8],
    order: Order,
) -> Result<Done, Refusal>
    ensures { Replies extent store.old store.new result (initialise_bytes (ord order.entry) extent store.old (length s.old) b.now) }
{
    let n = check::count_of(store, extent, b, s.len())?;
    let c = store::capacity_of(extent.size);
    initialise_counted(store, extent, c, b, n, s, order)
}

// Inserts a batch at a root. Nothing is written unless the whole batch may go in.
pub fn insert(
    store: &mut [u8],
    recorded: StoreRecord,
    root: PageId,
    b: &[u8],
    s: &mut [u8],
    heap: &[u8],
) -> Result<Done, Refusal>
    ensures { Replies (extent_of recorded) store.old store.new result (insert_bytes_call recorded store.old heap.now (length s.old) root b.now) }
{
    let extent = recorded.extent();
    let bad = check::is_bad(store, extent, s.len());
    let by = ordered::order_in(recorded, bad, heap)?;
    let used = heap::used_of(heap, recorded.heap);
    let order = Order { by, heap: used };
    insert_in(store, extent, root, b, s, order)
}

// Makes a new tree of a batch in any order. It reads no page.
pub fn initialise(
    store: &mut [u8],
    recorded: StoreRecord,
    b: &[u8],
    s: &mut [u8],
    heap: &[u8],
) -> Result<Done, Refusal>
    ensures { Replies (extent_of recorded) store.old store.new result (initialise_bytes_call recorded store.old heap.now (length s.old) b.now) }
{
    let extent = recorded.extent();
    let bad = check::is_bad(store, extent, s.len());
    let by = ordered::order_in(recorded, bad, heap)?;
    let used = heap::used_of(heap, recorded.heap);
    let order = Order { by, heap: used };
    initialise_in(store, extent, b, s, order)
}
