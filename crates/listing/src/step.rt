// A step of a listing.
ghost use Rattle.std.specs.Prelude.{◌≡◌, ◌≤◌, get_or};
ghost use Rattle.store.specs.Page.{page};
ghost use Rattle.index.specs.Order.{ord};
ghost use Rattle.rules.specs.Listing.{begin_frames, open_frames, onward, step_list};
ghost use Rattle.rules.specs.Calls.{step_call};
ghost use Rattle.memory_store.specs.Pages.{order_of, fetched_from};
ghost use Rattle.listing.specs.Advance.{begin_of, advanced, yield_of, stepped_as, Within};

use crate::way::Way;
use crate::{begin, candidate, descent, opening, way};
use answer::{Cursor, Damage, Fault, Refusal, Stepped};
use datom::Datom;
use index::Order;
use memory_store::access;
use memory_store::pages::Pages;
use store::{Extent, PageId, StoreRecord};

// The index of a level is taken. Beside a pending datom the levels below stay, behind a midpoint they are filled anew from the next child.
fn advance(pages: &Pages, level: usize, begin: Way) -> Result<Way, Damage>
    requires { (level ≤ 7) × Within (fetched_from pages.now (get_or begin.pages level (page 0))) (get_or begin.indices level 0) }
    ensures { result ≡ advanced (order_of pages.now) pages.now.extent pages.now.store.now begin level }
{
    let index = begin.indices[level];
    let page = begin.pages[level];
    let part = memory_store::fetch(pages.store, pages.extent, page);
    let count = access::count_of(part, pages.capacity);
    let i = index as usize;
    let mut next = begin;
    next.indices[level] = index + 1;
    if level == 0 {
        return Ok(next);
    }
    if !access::is_midpoint_at(part, pages.capacity, count, i) {
        return Ok(next);
    }
    let Some(child) = access::next_midpoint(part, pages.capacity, count, i + 1) else {
        return Err(Damage {
            page: PageId::max(),
            fault: Fault::Missing,
        });
    };
    descent::descend(pages, None, level - 1, child, next)
}

// A datom that a step yields, and the cursor behind it.
#[derive(Clone, Copy)]
struct Yielded {
    datom: Datom,
    cursor: Cursor,
}

// The datom of a level is yielded, unless a page is lost while the cursor advances.
fn yield_at(
    pages: &Pages,
    cursor: Cursor,
    level: usize,
    datom: Datom,
) -> Result<Option<Yielded>, Refusal>
    requires { (cursor.height ≤ 8) × ((level ≤ 7) × Within (fetched_from pages.now (get_or cursor.begin_pages level (page 0))) (get_or cursor.begin_indices level 0)) }
    ensures { stepped_as cursor result ≡ yield_of cursor datom (advanced (order_of pages.now) pages.now.extent pages.now.store.now (begin_of cursor) level) }
{
    let indices = cursor.begin_indices;
    let ids = cursor.begin_pages;
    let begin = Way {
        indices,
        pages: ids,
    };
    let next = advance(pages, level, begin)?;
    let indices = cursor.end_indices;
    let ids = cursor.end_pages;
    let end = Way {
        indices,
        pages: ids,
    };
    let cursor = begin::cursor_of(cursor.height as usize, next, end);
    Ok(Some(Yielded { datom, cursor }))
}

// The begin pages are opened, and the smallest datom under the indices is yielded.
fn step_on(pages: &Pages, cursor: Cursor) -> Result<Option<Yielded>, Refusal>
    requires { cursor.height ≤ 8 }
    ensures { stepped_as cursor result ≡ onward (order_of pages.now).cmp (fetched_from pages.now) cursor (open_frames (fetched_from pages.now) (begin_frames cursor)) }
{
    opening::open_all(pages, cursor)?;
    match candidate::smallest(pages, cursor) {
        Err(page) => Err(Refusal::Damaged(page, Fault::EqualDatoms)),
        Ok(None) => Err(Refusal::Damaged(PageId::max(), Fault::NothingLeft)),
        Ok(Some(best)) => yield_at(pages, cursor, best.level, best.datom),
    }
}

// What the next step yields, if the listing has not ended, for any cursor.
fn next_in(
    store: &[u8],
    extent: Extent,
    cursor: Cursor,
    order: Order,
) -> Result<Option<Yielded>, Refusal>
    ensures { stepped_as cursor result ≡ step_list (ord order.entry) extent store.now cursor }
{
    let pages = Pages::in_order(store, extent, order)?;
    if (way::LEVELS as u64) < cursor.height {
        return Err(Refusal::Damaged(PageId::max(), Fault::TooHigh));
    }
    if way::is_at_end(cursor) {
        return Ok(None);
    }
    step_on(&pages, cursor)
}

// An ended or refused step returns its cursor as it was.
fn stepped(cursor: Cursor, next: Result<Option<Yielded>, Refusal>) -> Stepped
    ensures { result ≡ stepped_as cursor next }
{
    let (answer, cursor) = match next {
        Ok(Some(yielded)) => (Ok(Some(yielded.datom)), yielded.cursor),
        Ok(None) => (Ok(None), cursor),
        Err(refusal) => (Err(refusal), cursor),
    };
    Stepped { answer, cursor }
}

// The next datom of a listing, for any cursor.
pub fn step_in(store: &[u8], extent: Extent, cursor: Cursor, order: Order) -> Stepped
    ensures { result ≡ step_list (ord order.entry) extent store.now cursor }
{
    stepped(cursor, next_in(store, extent, cursor, order))
}

// One step of a listing.
pub fn step(store: &[u8], recorded: StoreRecord, cursor: Cursor, heap: &[u8]) -> Stepped
    ensures { result ≡ step_call recorded store.now heap.now cursor }
{
    let extent = recorded.extent();
    let bad = memory_store::is_bad(store, extent);
    match ordered::order_in(recorded, bad, heap) {
        Err(refusal) => stepped(cursor, Err(refusal)),
        Ok(by) => {
            let used = heap::used_of(heap, recorded.heap);
            let order = Order { by, heap: used };
            step_in(store, extent, cursor, order)
        }
    }
}
