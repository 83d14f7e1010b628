// What stands in a page, or in an area that is laid out as one: n datoms from 0 on, and n + 1 children from 32 * m on, m being how
// many datoms there is room for. A page also has a header behind the children.
ghost use Rattle.std.specs.Prelude.{◌≡◌, suc, ◌+◌, ◌*◌, ◌≤◌, true, length, drop};
ghost use Rattle.datom.specs.Datom.{datoms_of};
ghost use Rattle.index.specs.Order.{ord};
ghost use Rattle.rules.specs.Page.{level_of, count_of, children_of, rising};
ghost use Rattle.rules.specs.Node.{is_midpoint, next_midpoint, rank};

use datom::Datom;
use index::Order;
use store::PageId;

// The level that the header of a page with room for c datoms tells.
pub fn level_of(s: &[u8], c: usize) -> usize
    requires { 40 * c + 10 ≤ length s.now }
    ensures { result ≡ level_of c s.now }
{
    s[40 * c + 8] as usize
}

// How many datoms the header tells of.
pub fn count_of(s: &[u8], c: usize) -> usize
    requires { 40 * c + 10 ≤ length s.now }
    ensures { result ≡ count_of c s.now }
{
    s[40 * c + 9] as usize
}

// Whether the datom at index i is a midpoint: the child at its index is real.
pub fn is_midpoint_at(s: &[u8], m: usize, n: usize, i: usize) -> bool
    requires { (n ≤ m) × ((40 * m + 8 ≤ length s.now) × (i ≤ n)) }
    ensures { result ≡ is_midpoint (children_of m (suc n) s.now) i }
{
    !store::child_at(s, m, i).is_none()
}

// The first real child at or after an index.
pub fn next_midpoint(s: &[u8], m: usize, n: usize, from: usize) -> Option<PageId>
    requires { (n ≤ m) × (40 * m + 8 ≤ length s.now) }
    ensures { result ≡ next_midpoint (drop from (children_of m (suc n) s.now)) }
{
    (from..n + 1)
        .map(|i| store::child_at(s, m, i))
        .find(|child| !child.is_none())
}

// The index of the first of k rising datoms that is not below d, by halving.
pub fn first_not_below(s: &[u8], k: usize, d: Datom, order: Order) -> usize
    requires { (32 * k ≤ length s.now) × (rising (ord order).cmp (datoms_of k s.now) ≡ true) }
    ensures { result ≡ rank (ord order.entry).cmp d (datoms_of k s.now) }
{
    let mut lo = 0;
    let mut hi = k;
    while lo < hi {
        let mid = lo + (hi - lo) / 2;
        if order.cmp(datom::datom_at(s, 32 * mid), d).is_lt() {
            lo = mid + 1;
        } else {
            hi = mid;
        }
    }
    lo
}
