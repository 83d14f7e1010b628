// The lent store, after memory_store.rs of the Rust: fetching a page, reading it, and writing a free one. The store is a slice and a
// page count; nothing here keeps a copy of a page.
#![tactic(auto)]

pub mod access;
pub mod found;
pub mod pages;
pub mod reader;
pub mod writer;

ghost use Rattle.std.specs.Prelude.{◌≡◌, ◌<◌, false};
ghost use Rattle.rules.specs.Store.{bad_store, bad_root, fetch_answer, page_at, fetched};

use answer::Refusal;
use store::{Extent, PageId};

// Whether the page size is unknown or the pages in use exceed the slice. The slice's length is divided, so nothing can wrap.
pub fn is_bad(store: &[u8], extent: Extent) -> bool
    ensures { result ≡ bad_store extent store.now }
{
    if store::capacity_of(extent.size) == 0 {
        return true;
    }
    let size = extent.size as usize;
    let room = (store.len() / size) as u64;
    room < extent.count
}

// Whether a root is neither none nor below the count.
pub fn is_bad_root(extent: Extent, root: PageId) -> bool
    ensures { result ≡ bad_root extent root }
{
    !root.is_none() && extent.count <= root.0
}

// Whether a fetch is refused, and why.
pub fn fetch_refusal(store: &[u8], extent: Extent, page: PageId) -> Result<(), Refusal>
    ensures { result ≡ fetch_answer extent store.now page }
{
    if is_bad(store, extent) {
        return Err(Refusal::BadStore);
    }
    if extent.count <= page.0 {
        return Err(Refusal::NoPage);
    }
    Ok(())
}

// The page's own part of a store in order.
pub fn part_of(store: &[u8], extent: Extent, page: PageId) -> &[u8]
    requires { (bad_store extent store.now ≡ false) × (page.0 < extent.count) }
    ensures { result.now ≡ page_at extent store.now page }
{
    let size = extent.size as usize;
    let at = page.0 as usize * size;
    &store[at..at + size]
}

// The page's own part of the store, or the empty part where the fetch is refused.
pub fn fetch(store: &[u8], extent: Extent, page: PageId) -> &[u8]
    ensures { result.now ≡ fetched extent store.now page }
{
    let Ok(()) = fetch_refusal(store, extent, page) else {
        return &store[0..0];
    };
    part_of(store, extent, page)
}
