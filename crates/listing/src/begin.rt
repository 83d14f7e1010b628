// The start of a listing: each bound's way down to level 0, the lower first.
ghost use Rattle.std.specs.Prelude.{◌&&◌, not, [], ◌≡◌, ◌≤◌};
ghost use Rattle.store.specs.Page.{is_none};
ghost use Rattle.index.specs.Order.{ord, is_less};
ghost use Rattle.rules.specs.Listing.{cursor_of, refuse_start, join_paths, start_under, start_list};
ghost use Rattle.rules.specs.Calls.{start_call};
ghost use Rattle.memory_store.specs.Pages.{order_of};
ghost use Rattle.listing.specs.Way.{frames_of};
ghost use Rattle.listing.specs.Descent.{test_of, down_of};
ghost use Rattle.listing.specs.Starts.{started_as};

use crate::way::Way;
use crate::{descent, way};
use answer::{Cursor, Damage, Refusal, Started};
use datom::Datom;
use index::Order;
use memory_store::pages::Pages;
use store::{Extent, PageId, StoreRecord};

// The cursor of two ends of this height.
pub fn cursor_of(height: usize, begin: Way, end: Way) -> Cursor
    requires { height ≤ 8 }
    ensures { result ≡ cursor_of (frames_of height begin) (frames_of height end) }
{
    let b = way::only_used(begin, height);
    let e = way::only_used(end, height);
    // Each array has a name first, since the check does not follow one from field to field.
    let begin_indices = b.indices;
    let begin_pages = b.pages;
    let end_indices = e.indices;
    let end_pages = e.pages;
    Cursor {
        height: height as u64,
        begin_indices,
        begin_pages,
        end_indices,
        end_pages,
    }
}

// The cursor that has ended because there is nothing to list.
pub fn nothing() -> Cursor
    ensures { result ≡ cursor_of [] [] }
{
    Cursor {
        height: 0,
        begin_indices: [0; way::LEVELS],
        begin_pages: [PageId(0); way::LEVELS],
        end_indices: [0; way::LEVELS],
        end_pages: [PageId(0); way::LEVELS],
    }
}

pub fn refused(refusal: Refusal) -> Started
    ensures { result ≡ refuse_start refusal }
{
    Started {
        answer: Err(refusal),
        cursor: nothing(),
    }
}

// A start by the cursor it begins with, or by its refusal.
fn started(begun: Result<Cursor, Refusal>) -> Started
    ensures { result ≡ started_as begun }
{
    match begun {
        Ok(cursor) => Started {
            answer: Ok(()),
            cursor,
        },
        Err(refusal) => refused(refusal),
    }
}

// Both ways from a root of this level.
fn start_at(
    pages: &Pages,
    root: PageId,
    level: usize,
    lower: Datom,
    upper: Datom,
) -> Result<Cursor, Refusal>
    requires { level ≤ 7 }
    ensures { started_as result ≡ join_paths (down_of (order_of pages.now) pages.now.extent pages.now.store.now (test_of (order_of pages.now) (Some lower)) level root) (down_of (order_of pages.now) pages.now.extent pages.now.store.now (test_of (order_of pages.now) (Some upper)) level root) }
{
    let empty = way::empty();
    let begin = descent::descend(pages, Some(lower), level, root, empty)?;
    let end = descent::descend(pages, Some(upper), level, root, empty)?;
    Ok(cursor_of(level + 1, begin, end))
}

// Whether there can be something to list: a root, and a lower bound below the upper.
fn is_any_between(root: PageId, lower: Datom, upper: Datom, order: Order) -> bool
    ensures { result ≡ (is_less ((ord order.entry).cmp lower upper) && not (is_none root)) }
{
    order.cmp(lower, upper).is_lt() && !root.is_none()
}

// The root is read, and its level is where both ways begin.
fn start_under(pages: &Pages, root: PageId, lower: Datom, upper: Datom) -> Result<Cursor, Refusal>
    ensures { started_as result ≡ start_under (order_of pages.now) pages.now.extent pages.now.store.now root lower upper }
{
    if !is_any_between(root, lower, upper, pages.order) {
        return Ok(nothing());
    }
    let read = pages.header(root);
    let header = read.map_err(|fault| Damage { page: root, fault })?;
    start_at(pages, root, header.level, lower, upper)
}

// The cursor that a start begins with. Document 01: "Starting a listing checks 1, 10, 5, then the bounds' order, then pages."
fn begun_in(
    store: &[u8],
    extent: Extent,
    root: PageId,
    lower: Datom,
    upper: Datom,
    order: Order,
) -> Result<Cursor, Refusal>
    ensures { started_as result ≡ start_list (ord order.entry) extent store.now root lower upper }
{
    let pages = Pages::in_order(store, extent, order)?;
    if !lower.is_bound(order.heap) {
        return Err(Refusal::BadBound);
    }
    if !upper.is_bound(order.heap) {
        return Err(Refusal::BadBound);
    }
    if memory_store::is_bad_root(extent, root) {
        return Err(Refusal::NoPage);
    }
    start_under(&pages, root, lower, upper)
}

// A cursor to the datoms from the lower bound on and below the upper.
pub fn start_in(
    store: &[u8],
    extent: Extent,
    root: PageId,
    lower: Datom,
    upper: Datom,
    order: Order,
) -> Started
    ensures { result ≡ start_list (ord order.entry) extent store.now root lower upper }
{
    started(begun_in(store, extent, root, lower, upper, order))
}

// A listing from the lower bound up to the upper.
pub fn start(
    store: &[u8],
    recorded: StoreRecord,
    root: PageId,
    lower: Datom,
    upper: Datom,
    heap: &[u8],
) -> Started
    ensures { result ≡ start_call recorded store.now heap.now root lower upper }
{
    let extent = recorded.extent();
    let bad = memory_store::is_bad(store, extent);
    match ordered::order_in(recorded, bad, heap) {
        Err(refusal) => refused(refusal),
        Ok(by) => {
            let used = heap::used_of(heap, recorded.heap);
            let order = Order { by, heap: used };
            start_in(store, extent, root, lower, upper, order)
        }
    }
}
