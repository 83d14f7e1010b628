// The begin pages of a cursor, from the top: whether each can be read at its level and its index is within the page.
ghost use Rattle.std.specs.Prelude.{◌≡◌, ◌≤◌};
ghost use Rattle.rules.specs.Tree.{at_level};
ghost use Rattle.rules.specs.Listing.{begin_frames, open_frames};
ghost use Rattle.memory_store.specs.Pages.{fetched_from};
ghost use Rattle.listing.specs.Opening.{open_of, opening_of};

use answer::{Cursor, Damage, Fault};
use memory_store::pages::Pages;
use store::PageId;

// One page, which is to be of this level and to have no fewer datoms than the index.
fn open_one(pages: &Pages, level: usize, index: u64, page: PageId) -> Result<(), Fault>
    ensures { result ≡ open_of index (at_level level (fetched_from pages.now page)) }
{
    let k = pages.open(level, page)?;
    if index <= k as u64 {
        return Ok(());
    }
    Err(Fault::PastCount)
}

// The first page from the top that is not open.
pub fn open_all(pages: &Pages, cursor: Cursor) -> Result<(), Damage>
    requires { cursor.height ≤ 8 }
    ensures { result ≡ opening_of (open_frames (fetched_from pages.now) (begin_frames cursor)) }
{
    let height = cursor.height as usize;
    for level in (0..height).rev() {
        let page = cursor.begin_pages[level];
        let index = cursor.begin_indices[level];
        let opened = open_one(pages, level, index, page);
        opened.map_err(|fault| Damage { page, fault })?;
    }
    Ok(())
}
