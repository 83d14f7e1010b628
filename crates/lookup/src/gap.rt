// The gap that a lookup leaves: one search for all datoms of a batch that lie in it.
ghost use Rattle.std.specs.Prelude.{◌≡◌, ◌+◌, ◌*◌, ◌≤◌, length, drop};
ghost use Rattle.datom.specs.Datom.{datoms_of};
ghost use Rattle.index.specs.Order.{ord};
ghost use Rattle.rules.specs.Node.{rank_by};
ghost use Rattle.lookup.specs.Gap.{inside, narrowed};

use datom::Datom;
use index::Order;

// A gap holds the datoms above the one sought whose paths run through the same pages and meet an equal datom in none of them: those below
// the least datom that stands next to it in these pages, which ends the gap, or all of them where it is above every page.

// The end of the gap as far as the datom at index i, of k, of one more page.
pub fn narrow(gap: Option<Datom>, page: &[u8], k: usize, i: usize, order: Order) -> Option<Datom>
    requires { 32 * k ≤ length page.now }
    ensures { result ≡ narrowed (ord order.entry) gap (drop i (datoms_of k page.now)) }
{
    if k <= i {
        return gap;
    }
    let next = datom::datom_at(page, 32 * i);
    let Some(high) = gap else {
        return Some(next);
    };
    let is_below = order.cmp(next, high).is_lt();
    if is_below {
        return Some(next);
    }
    Some(high)
}

// Whether d lies below the end of the gap.
fn is_inside(gap: Option<Datom>, d: Datom, order: Order) -> bool
    ensures { result ≡ inside (ord order.entry) gap d }
{
    // By the parts of the order: of a closure that holds all of it the check does not find what it gives.
    let Order { by, heap } = order;
    gap.is_none_or(|high| index::order_of(d, high, by, heap).is_lt())
}

// The index of the first datom of the batch of n, from an index on, that is past the end of the gap.
pub fn skip(gap: Option<Datom>, b: &[u8], n: usize, from: usize, order: Order) -> usize
    requires { (32 * n ≤ length b.now) × (from ≤ n) }
    ensures { result ≡ from + rank_by (inside (ord order.entry) gap) (drop from (datoms_of n b.now)) }
{
    for i in from..n {
        if !is_inside(gap, datom::datom_at(b, 32 * i), order) {
            return i;
        }
    }
    n
}
