// The search for a batch that repeats a datom of the tree. Document 01: "Before writing, insert looks every batch datom up along its
// path, in batch order." And for one that the tree does not hold all of.
#![tactic(auto)]

pub mod gap;

ghost use Rattle.std.specs.Prelude.{true, false, ◌≡◌, ◌*◌, ◌≤◌, ◌<◌, length, drop, Ok, IfOk};
ghost use Rattle.store.specs.Page.{is_none};
ghost use Rattle.datom.specs.Datom.{datoms_of};
ghost use Rattle.index.specs.Order.{ord};
ghost use Rattle.rules.specs.Page.{rising};
ghost use Rattle.rules.specs.Node.{head_same};
ghost use Rattle.rules.specs.Tree.{fetch_at};
ghost use Rattle.rules.specs.Lookup.{lookup_all};
ghost use Rattle.rules.specs.Held.{held_all};
ghost use Rattle.batch.specs.Finding.{finding_of};
ghost use Rattle.memory_store.specs.Opened.{opened_of};
ghost use Rattle.memory_store.specs.Pages.{order_of, fetched_from, read_from, ReadAs};
ghost use Rattle.lookup.specs.Look.{look_of, path_of, end_of};
ghost use Rattle.lookup.specs.Path.{unread, Kept};
ghost use Rattle.lookup.specs.Gap.{Leaves};

use answer::{Damage, Fault, Refusal};
use datom::Datom;
use index::Order;
use memory_store::access;
use memory_store::pages::Pages;
use store::PageId;

// A page that was read, none where nothing was, and how many datoms it has.
#[derive(Clone, Copy)]
struct Step {
    page: PageId,
    count: usize,
}

// What was read on the last path, by level, so that no page is read again for the datom that comes next.
#[derive(Clone, Copy)]
struct Path {
    steps: [Step; 8],
}

impl Path {
    fn new() -> Path
        ensures { result ≡ unread }
    {
        let none = Step {
            page: PageId::max(),
            count: 0,
        };
        Path { steps: [none; 8] }
    }
}

// Where a datom's path ends: whether at an equal datom, else at level 0, and the gap that it leaves. An enum of the two ends would have an
// Option of an Option for the gap.
#[derive(Clone, Copy)]
struct Looked {
    met: bool,
    gap: Option<Datom>,
}

// Whether there is a datom at index i, of k, and it is equal to d.
fn is_met(page: &[u8], k: usize, i: usize, d: Datom, order: Order) -> bool
    requires { 32 * k ≤ length page.now }
    ensures { result ≡ head_same (ord order.entry).cmp d (drop i (datoms_of k page.now)) }
{
    i < k && order.cmp(datom::datom_at(page, 32 * i), d).is_eq()
}

// Page `page`, which is to be of this level. It may have been read on the last path: what it is opened as is then known, since the store
// is the same.
fn open_at(pages: &Pages, path: &Path, level: usize, page: PageId) -> Result<usize, Fault>
    requires { Kept (order_of pages.now) pages.now.extent pages.now.store.now path.now × (level < 8) × (is_none page ≡ false) }
    ensures { result ≡ opened_of (fetch_at (read_from pages.now) level page) }
{
    let last = path.steps[level];
    if last.page == page {
        return Ok(last.count);
    }
    pages.open(level, page)
}

// The path of d from the root, which is of this level and count: where it ends, or the page on it that cannot be read.
fn lookup_one(
    pages: &Pages,
    root: PageId,
    level: usize,
    count: usize,
    path: &mut Path,
    d: Datom,
) -> Result<Looked, Damage>
    requires { Kept (order_of pages.now) pages.now.extent pages.now.store.now path.old × ReadAs pages.now root level count }
    ensures { (end_of result ≡ look_of (path_of (order_of pages.now) pages.now.extent pages.now.store.now d level root)) × Kept (order_of pages.now) pages.now.extent pages.now.store.now path.new × IfOk result (λ looked. Leaves (order_of pages.now) pages.now.extent pages.now.store.now d level root (Ok looked.met) looked.gap) }
{
    let mut gap = None;
    let mut page = root;
    let mut l = level;
    let mut k = count;
    // No loop over the levels: the page at level 0 is searched too, and nothing follows it.
    loop {
        let part = pages.part(page);
        let i = access::first_not_below(part, k, d, pages.order);
        if is_met(part, k, i, d, pages.order) {
            return Ok(Looked { met: true, gap });
        }
        gap = gap::narrow(gap, part, k, i, pages.order);
        if l == 0 {
            return Ok(Looked { met: false, gap });
        }
        let Some(child) = access::next_midpoint(part, pages.capacity, k, i) else {
            return Err(Damage {
                page: PageId::max(),
                fault: Fault::Missing,
            });
        };
        l -= 1;
        let opened = open_at(pages, path, l, child);
        k = opened.map_err(|fault| Damage { page: child, fault })?;
        path.steps[l] = Step {
            page: child,
            count: k,
        };
        page = child;
    }
}

// Whether a datom of the batch of n is met on its path from the root, or a page there cannot be read: the first such finding. The root
// is of this level and count. The batch rises, so the datoms that follow one in its gap need no search of their own.
pub fn lookup_all(
    pages: &Pages,
    root: PageId,
    level: usize,
    count: usize,
    b: &[u8],
    n: usize,
) -> Result<(), Refusal>
    requires { ReadAs pages.now root level count × (32 * n ≤ length b.now) × (rising (order_of pages.now).cmp (datoms_of n b.now) ≡ true) }
    ensures { finding_of result ≡ lookup_all (read_from pages.now) level root (fetched_from pages.now root) 0 (datoms_of n b.now) }
{
    let mut path = Path::new();
    let mut i = 0;
    // Counted by hand: those that lie in the gap are passed by.
    while i < n {
        let d = datom::datom_at(b, 32 * i);
        let looked = lookup_one(pages, root, level, count, &mut path, d)?;
        if looked.met {
            return Err(Refusal::Repeated(i));
        }
        i = gap::skip(looked.gap, b, n, i + 1, pages.order);
    }
    Ok(())
}

// Whether each datom of the batch of n is met on its path from the root: the first that is not, or that comes to a page that cannot be
// read. The root is of this level and count. It shares `lookup_one` with `lookup_all` and no more: there a gap is passed by, here each datom is
// asked for.
pub fn held_all(
    pages: &Pages,
    root: PageId,
    level: usize,
    count: usize,
    b: &[u8],
    n: usize,
) -> Result<(), Refusal>
    requires { ReadAs pages.now root level count × (32 * n ≤ length b.now) }
    ensures { finding_of result ≡ held_all (read_from pages.now) level root (fetched_from pages.now root) 0 (datoms_of n b.now) }
{
    let mut path = Path::new();
    for i in 0..n {
        let d = datom::datom_at(b, 32 * i);
        let looked = lookup_one(pages, root, level, count, &mut path, d)?;
        if !looked.met {
            return Err(Refusal::NotHeld(i));
        }
    }
    Ok(())
}
