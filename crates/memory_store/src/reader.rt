// The page reader: the first rule that a page breaks, or its level and count.
ghost use Rattle.std.specs.Prelude.{◌≡◌, ℕ, ◌+◌, ◌*◌, ◌≤◌, true, List, length, drop};
ghost use Rattle.store.specs.Words.{word_at, cells};
ghost use Rattle.store.specs.Page.{page, page_of};
ghost use Rattle.datom.specs.Datom.{datom_at, datoms_of, stored_datom};
ghost use Rattle.index.specs.Order.{DatomOrd, is_less, ord, order_in};
ghost use Rattle.rules.specs.Page.{node_of, all, rising, older, child_rules, read_page};
ghost use Rattle.memory_store.specs.Reading.{said};
ghost use Rattle.memory_store.specs.Fours.{FourIntegers, WordsRise, FourWordsRise, FourRise, LetsPlain, FourOlder, SameFrom};

use crate::access;
use answer::Rule;
use datom::Value;
use index::{Index, Order};
use store::PageId;

// What a page that breaks no rule tells of itself: its level, and how many datoms it has.
#[derive(Clone, Copy)]
pub struct Header {
    pub level: usize,
    pub count: usize,
}

// Whether the values of four datoms from byte `at` on are integers. The bits of all four are looked at as one number.
fn four_integers(s: &[u8], at: usize) -> bool
    requires { at + 120 ≤ length s.now }
    ensures { result ≡ true → FourIntegers s.now at }
{
    let front = store::word(s, at + 16) | store::word(s, at + 48);
    let back = store::word(s, at + 80) | store::word(s, at + 112);
    (front | back) < Value::TAG_EXTERNAL
}

// Whether the word at p is below the one 32 bytes behind it, or is the same and the word at q is.
fn words_rise(s: &[u8], p: usize, q: usize) -> bool
    requires { (p + 40 ≤ length s.now) × (q + 40 ≤ length s.now) }
    ensures { result ≡ true → WordsRise s.now p q }
{
    let first = store::word(s, p);
    let second = store::word(s, p + 32);
    first < second || (first == second && store::word(s, q) < store::word(s, q + 32))
}

// Whether the words at p and q of four datoms and of the one behind them do.
fn four_words_rise(s: &[u8], p: usize, q: usize) -> bool
    requires { (p + 136 ≤ length s.now) × (q + 136 ≤ length s.now) }
    ensures { result ≡ true → FourWordsRise s.now p q }
{
    words_rise(s, p, q)
        && words_rise(s, p + 32, q + 32)
        && words_rise(s, p + 64, q + 64)
        && words_rise(s, p + 96, q + 96)
}

// How many of the k datoms need no further look: four at a time, for as long as they are integers and `rise` tells from the byte where
// they lie that they rise. Of most pages that leaves four datoms at most. Counted by hand, since the first four that need a look end it.
fn plain_fours<F: Fn(usize) -> bool>(s: &[u8], k: usize, rise: F) -> usize
    requires room { 32 * k ≤ length s.now }
    requires safe { (at : ℕ) → at + 160 ≤ 32 * k → F.pre rise at }
    ensures few { result ≤ k }
    ensures same { (t : DatomOrd) → LetsPlain t → ((at : ℕ) → FourIntegers s.now at → F.post rise at true → FourRise t s.now at) → SameFrom t k s.now 0 result }
{
    let mut i = 0;
    while i + 4 < k && four_integers(s, 32 * i) && rise(32 * i) {
        i += 4;
    }
    i
}

// The same in a tree's order: datoms are seen to rise by the first two words of the order, so whatever the heap holds. A loop for each
// order, so that none asks in its turns which it is.
fn plain_front(s: &[u8], k: usize, by: Index) -> usize
    requires { 32 * k ≤ length s.now }
    ensures { (result ≤ k) × ((h : List ℕ) → SameFrom (order_in by h) k s.now 0 result) }
{
    match by {
        Index::Eavt => plain_fours(s, k, |at| four_words_rise(s, at, at + 8)),
        Index::Aevt => plain_fours(s, k, |at| four_words_rise(s, at + 8, at)),
        // The datom behind the four must have an integer, too: a constant may have any content.
        Index::Avet => plain_fours(s, k, |at| {
            store::word(s, at + 144) < Value::TAG_EXTERNAL && four_words_rise(s, at + 8, at + 16)
        }),
    }
}

// Every one of the k datoms from index `from` on may be stored: only their values are looked at.
fn all_stored(s: &[u8], from: usize, k: usize, heap: &[u8]) -> bool
    requires { 32 * k ≤ length s.now }
    ensures { result ≡ all (stored_datom heap.now) (drop from (datoms_of k s.now)) }
{
    (from..k).all(|i| Value(store::word(s, 32 * i + 16)).is_stored(heap))
}

// Whether the datom at byte `at` is below the one behind it. Both are looked at where they lie: the places of the order's words do not change, so
// that no turn of a loop asks which order it is.
fn rises_at(s: &[u8], at: usize, order: Order) -> bool
    requires { at + 64 ≤ length s.now }
    ensures { result ≡ is_less ((ord order.entry).cmp (datom_at s.now at) (datom_at s.now (at + 32))) }
{
    let p = at + index::first_place(order.by);
    let x = store::word(s, p);
    let y = store::word(s, p + 32);
    if x != y {
        return x < y;
    }
    let q = at + index::second_place(order.by);
    let u = store::word(s, q);
    let v = store::word(s, q + 32);
    if index::second_decides(u, v, order.by) {
        return u < v;
    }
    index::content::is_below_behind(
        Value(store::word(s, at + 16)),
        Value(store::word(s, at + 48)),
        store::word(s, at),
        store::word(s, at + 32),
        store::word(s, at + 24),
        store::word(s, at + 56),
        order.heap,
    )
}

// The k datoms from index `from` on rise. Each is compared with the next where they lie, so that nothing is carried from turn to turn.
fn all_rising(s: &[u8], from: usize, k: usize, order: Order) -> bool
    requires { (from ≤ k) × (32 * k ≤ length s.now) }
    ensures { result ≡ rising (ord order.entry).cmp (drop from (datoms_of k s.now)) }
{
    (from + 1..k).all(|next| rises_at(s, 32 * (next - 1), order))
}

// Whether the child at byte `at` is none or below id. None is the largest word, so the number after it is 0: one test tells for both.
fn is_older(s: &[u8], at: usize, id: PageId) -> bool
    requires { at + 8 ≤ length s.now }
    ensures { result ≡ older id (page (word_at s.now at)) }
{
    std::num::wrapping_add_u64(store::word(s, at), 1) <= id.0
}

// Whether the four children from byte `at` on are.
fn four_older(s: &[u8], at: usize, id: PageId) -> bool
    requires { at + 32 ≤ length s.now }
    ensures { result ≡ true → FourOlder id s.now at }
{
    is_older(s, at, id)
        && is_older(s, at + 8, id)
        && is_older(s, at + 16, id)
        && is_older(s, at + 24, id)
}

// How many of n children need no further look, four at a time. Counted by hand, since the first four that need one end it.
fn older_front(s: &[u8], at: usize, n: usize, id: PageId) -> usize
    requires { at + 8 * n ≤ length s.now }
    ensures { (result ≤ n) × (all (older id) (drop result (cells page_of 8 n (drop at s.now))) ≡ all (older id) (cells page_of 8 n (drop at s.now))) }
{
    let mut i = 0;
    while i + 4 <= n && four_older(s, at + 8 * i, id) {
        i += 4;
    }
    i
}

// Every one of n children is none or below id. A `for`, since `all` of the range compiles to three instructions more for a child.
fn all_older(s: &[u8], at: usize, n: usize, id: PageId) -> bool
    requires { at + 8 * n ≤ length s.now }
    ensures { result ≡ all (older id) (cells page_of 8 n (drop at s.now)) }
{
    for i in older_front(s, at, n, id)..n {
        if !is_older(s, at + 8 * i, id) {
            return false;
        }
    }
    true
}

// The children's rules, of a page of c datoms at most that has k of them.
fn read_children(s: &[u8], c: usize, id: PageId, level: usize, k: usize) -> Result<Header, Rule>
    requires { (40 * c + 8 ≤ length s.now) × (k ≤ c) }
    ensures { said c s.now result ≡ child_rules id (node_of c level k s.now) }
{
    if level == 0 {
        // No page is below page 0, so every child is none.
        if !all_older(s, 32 * c, k + 1, PageId(0)) {
            return Err(Rule::LeafChild);
        }
        return Ok(Header { level, count: k });
    }
    if store::word(s, 32 * c + 8 * k) == PageId::NONE {
        return Err(Rule::LastChild);
    }
    if !all_older(s, 32 * c, k + 1, id) {
        return Err(Rule::ChildId);
    }
    Ok(Header { level, count: k })
}

// The first broken rule of a page that is to be page `id`, or its level and count.
pub fn read_page(s: &[u8], c: usize, id: PageId, order: Order) -> Result<Header, Rule>
    requires { 40 * c + 10 ≤ length s.now }
    ensures { said c s.now result ≡ read_page (ord order.entry) c id s.now }
{
    let level = access::level_of(s, c);
    let k = access::count_of(s, c);
    if 7 < level {
        return Err(Rule::Level);
    }
    if c < k {
        return Err(Rule::Count);
    }
    let plain = plain_front(s, k, order.by);
    if !all_stored(s, plain, k, order.heap) {
        return Err(Rule::Form);
    }
    if !all_rising(s, plain, k, order) {
        return Err(Rule::Order);
    }
    read_children(s, c, id, level, k)
}
