// The smallest datom under the indices of a cursor: a running minimum from level 0 up.
ghost use Rattle.std.specs.Prelude.{◌≡◌, ◌≤◌, drop};
ghost use Rattle.index.specs.Order.{ord};
ghost use Rattle.rules.specs.Tree.{fine};
ghost use Rattle.rules.specs.Listing.{begin_frames, open_frames};
ghost use Rattle.memory_store.specs.Pages.{order_of, fetched_from};
ghost use Rattle.listing.specs.Levels.{node_in};
ghost use Rattle.listing.specs.Opening.{opening_of};
ghost use Rattle.listing.specs.Candidate.{pick_one, pick, candidate_below};

use answer::Cursor;
use datom::Datom;
use index::Order;
use memory_store::access;
use memory_store::pages::Pages;
use std::cmp::Ordering;
use store::PageId;

// A datom, and the level that it is of.
#[derive(Clone, Copy)]
pub struct Candidate {
    pub level: usize,
    pub datom: Datom,
}

// The datom x of a level against the smallest of the levels below, if there is one so far. An equal pair is answered by the page of the
// higher level.
fn against(
    level: usize,
    page: PageId,
    x: Datom,
    best: Option<Candidate>,
    order: Order,
) -> Result<Option<Candidate>, PageId>
    ensures { result ≡ pick_one (ord order.entry) level page x (Ok best) }
{
    let Some(smallest) = best else {
        return Ok(Some(Candidate { level, datom: x }));
    };
    match order.cmp(smallest.datom, x) {
        Ordering::Less => Ok(best),
        Ordering::Equal => Err(page),
        Ordering::Greater => Ok(Some(Candidate { level, datom: x })),
    }
}

// What is left of a page that was read, against the smallest of the levels below.
fn chosen(
    pages: &Pages,
    level: usize,
    page: PageId,
    index: u64,
    best: Option<Candidate>,
) -> Result<Option<Candidate>, PageId>
    requires { fetched_from pages.now page ≡ fine (node_in (fetched_from pages.now page)) }
    ensures { result ≡ pick (order_of pages.now) level page (drop index (node_in (fetched_from pages.now page)).datoms) (Ok best) }
{
    let part = memory_store::fetch(pages.store, pages.extent, page);
    if access::count_of(part, pages.capacity) as u64 <= index {
        return Ok(best);
    }
    against(
        level,
        page,
        datom::datom_at(part, 32 * (index as usize)),
        best,
        pages.order,
    )
}

// All levels of a cursor whose pages are open.
pub fn smallest(pages: &Pages, cursor: Cursor) -> Result<Option<Candidate>, PageId>
    requires { (cursor.height ≤ 8) × (opening_of (open_frames (fetched_from pages.now) (begin_frames cursor)) ≡ Ok tt) }
    ensures { result ≡ candidate_below (order_of pages.now) (fetched_from pages.now) cursor.height cursor.begin_indices cursor.begin_pages }
{
    let mut best = None;
    for level in 0..cursor.height as usize {
        let index = cursor.begin_indices[level];
        let page = cursor.begin_pages[level];
        best = chosen(pages, level, page, index, best)?;
    }
    Ok(best)
}
