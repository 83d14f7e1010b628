// The check of a tree, after check_invariants_at of the Rust: a recursive walk over children. Document 01, "Listing and check": the rules
// stand in rules/specs/Check.antt.
#![tactic(auto)]

pub mod bound;

ghost use Rattle.std.specs.Prelude.{false, ◌≡◌};
ghost use Rattle.index.specs.Order.{ord};
ghost use Rattle.rules.specs.Tree.{fine, at_level};
ghost use Rattle.rules.specs.Check.{check_at, check_tree};
ghost use Rattle.rules.specs.Calls.{check_call};
ghost use Rattle.memory_store.specs.Pages.{order_of, fetched_from, ReadAs};
ghost use Rattle.invariants.specs.Bounds.{bound_of};
ghost use Rattle.invariants.specs.Verdict.{verdict_of};

use answer::{Damage, Fault, Flaw, Refusal};
use datom::Datom;
use index::Order;
use memory_store::pages::Pages;
use memory_store::reader::Header;
use store::{Extent, PageId, StoreRecord};

// Page `page`, which was read and is of this level and of k datoms, and all pages under it. The walk goes along the page's datoms, and
// past the last to its upper bound: each is to be above the last one passed, and bounds the child at its index from above. A page that was
// read has real children only above level 0.
fn check_at(
    pages: &Pages,
    level: usize,
    page: PageId,
    k: usize,
    lower: Option<Datom>,
    upper: Option<Datom>,
) -> Result<(), Damage>
    requires { ReadAs pages.now page level k }
    ensures { verdict_of result ≡ check_at (order_of pages.now).cmp (fetched_from pages.now) level page (bound_of lower) (bound_of upper) (at_level level (fetched_from pages.now page)) }
{
    let part = memory_store::fetch(pages.store, pages.extent, page);
    // By itself, so that no turn of the loop looks for it behind the reference.
    let order = pages.order;
    let mut last = lower;
    let mut midpoint = lower;
    for i in 0..=k {
        let next = bound::bound_at(part, k, i, upper);
        if !bound::is_below(last, next, order) {
            return Err(Damage {
                page,
                fault: Fault::OutOfBounds,
            });
        }
        last = next;
        let child = store::child_at(part, pages.capacity, i);
        if !child.is_none() {
            let low = level - 1;
            let opened = pages.open(low, child);
            let n = opened.map_err(|fault| Damage { page: child, fault })?;
            check_at(pages, low, child, n, midpoint, next)?;
            midpoint = next;
        }
    }
    Ok(())
}

// Whether the tree under a root is sound, or the first fault and its page. Document 01: "the check checks 1, 5", "Root "none" is
// Sound."
pub fn check_in(store: &[u8], extent: Extent, root: PageId, order: Order) -> Result<(), Flaw>
    ensures { result ≡ check_tree (ord order.entry) extent store.now root }
{
    let pages = Pages::in_order(store, extent, order)?;
    if memory_store::is_bad_root(extent, root) {
        return Err(Flaw::Refused(Refusal::NoPage));
    }
    if root.is_none() {
        return Ok(());
    }
    let read = pages.header(root);
    let Header { level, count } = read.map_err(|fault| Damage { page: root, fault })?;
    check_at(&pages, level, root, count, None, None)?;
    Ok(())
}

// Whether the tree under a root is sound, or the first fault and its page.
pub fn check(store: &[u8], recorded: StoreRecord, root: PageId, heap: &[u8]) -> Result<(), Flaw>
    ensures { result ≡ check_call recorded store.now heap.now root }
{
    let extent = recorded.extent();
    let bad = memory_store::is_bad(store, extent);
    let by = ordered::order_in(recorded, bad, heap)?;
    let used = heap::used_of(heap, recorded.heap);
    let order = Order { by, heap: used };
    check_in(store, extent, root, order)
}
