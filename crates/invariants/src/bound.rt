// Bounds that may be missing.
ghost use Rattle.std.specs.Prelude.{◌≡◌, ◌*◌, ◌≤◌, length, drop};
ghost use Rattle.datom.specs.Datom.{datoms_of};
ghost use Rattle.index.specs.Order.{ord};
ghost use Rattle.rules.specs.Check.{above_lower, below_upper};
ghost use Rattle.invariants.specs.Bounds.{bound_of, bound_at};

use datom::Datom;
use index::Order;

// Whether a datom is above a lower bound.
fn is_above(lower: Option<Datom>, d: Datom, order: Order) -> bool
    ensures { result ≡ above_lower (ord order.entry).cmp (bound_of lower) d }
{
    match lower {
        None => true,
        Some(x) => order.cmp(x, d).is_lt(),
    }
}

// Whether a lower bound is below an upper one.
pub fn is_below(lower: Option<Datom>, upper: Option<Datom>, order: Order) -> bool
    ensures { result ≡ below_upper (ord order.entry).cmp (bound_of lower) (bound_of upper) }
{
    match upper {
        None => true,
        Some(y) => is_above(lower, y, order),
    }
}

// What is above the child at index i of a page of k datoms: the datom at its index, and past the last the page's upper bound.
pub fn bound_at(part: &[u8], k: usize, i: usize, upper: Option<Datom>) -> Option<Datom>
    requires { 32 * k ≤ length part.now }
    ensures { bound_of result ≡ bound_at (drop i (datoms_of k part.now)) (bound_of upper) }
{
    if i < k {
        return Some(datom::datom_at(part, 32 * i));
    }
    upper
}
