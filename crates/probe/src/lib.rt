// Entries for tests: what the page reader and the access functions say of any bytes, asked from C or Rust. Each takes every input;
// where there is nothing to say the answer is 2^64-1. The heap is the part of it that is in use.
#![tactic(auto)]

ghost use Rattle.std.specs.Prelude.{◌≡◌};
ghost use Rattle.index.specs.Order.{index_of, ord, order_in};
ghost use Rattle.answer.specs.Table.{fetch_words};
ghost use Rattle.rules.specs.Store.{fetch_answer};
ghost use Rattle.probe.specs.Seen.{nothing, in_good_order, seen, shown, rule_of, level_of, count_of, word_of, child_of, next_of, first_of, order_of, wrote_of, rewritten};

use answer::Rule;
use index::Order;
use memory_store::reader::Header;
use std::cmp::Ordering;
use store::{Extent, PageId};

// Where there is nothing to say: an entry for C answers with one word.
const NOTHING: u64 = 0xffff_ffff_ffff_ffff;

// The header of bytes that are a readable page, or the first broken rule: none where no page has that many bytes.
fn look_at(bytes: &[u8], id: u64, order: Order) -> Result<Header, Option<Rule>>
    ensures { shown bytes.now result ≡ seen (ord order.entry) bytes.now id }
{
    let c = store::capacity_of(bytes.len() as u64);
    if c == 0 {
        return Err(None);
    }
    memory_store::reader::read_page(bytes, c, PageId(id), order).map_err(Some)
}

fn rule_in(bytes: &[u8], id: u64, order: Order) -> u64
    ensures { result ≡ rule_of (seen (ord order.entry) bytes.now id) }
{
    match look_at(bytes, id, order) {
        Err(Some(rule)) => rule.number(),
        Err(None) => NOTHING,
        Ok(_) => 0,
    }
}

fn level_in(bytes: &[u8], id: u64, order: Order) -> u64
    ensures { result ≡ level_of (seen (ord order.entry) bytes.now id) }
{
    let Ok(header) = look_at(bytes, id, order) else {
        return NOTHING;
    };
    header.level as u64
}

fn count_in(bytes: &[u8], id: u64, order: Order) -> u64
    ensures { result ≡ count_of (seen (ord order.entry) bytes.now id) }
{
    let Ok(header) = look_at(bytes, id, order) else {
        return NOTHING;
    };
    header.count as u64
}

fn word_in(bytes: &[u8], id: u64, i: usize, j: usize, order: Order) -> u64
    ensures { result ≡ word_of i j (seen (ord order.entry) bytes.now id) }
{
    let Ok(header) = look_at(bytes, id, order) else {
        return NOTHING;
    };
    if header.count <= i {
        return NOTHING;
    }
    if 3 < j {
        return NOTHING;
    }
    store::word(bytes, 32 * i + 8 * j)
}

fn child_in(bytes: &[u8], id: u64, i: usize, order: Order) -> u64
    ensures { result ≡ child_of i (seen (ord order.entry) bytes.now id) }
{
    let Ok(header) = look_at(bytes, id, order) else {
        return NOTHING;
    };
    if header.count < i {
        return NOTHING;
    }
    let c = store::capacity_of(bytes.len() as u64);
    let child = store::child_at(bytes, c, i);
    child.0
}

fn next_in(bytes: &[u8], id: u64, from: usize, order: Order) -> u64
    ensures { result ≡ next_of from (seen (ord order.entry) bytes.now id) }
{
    let Ok(header) = look_at(bytes, id, order) else {
        return NOTHING;
    };
    let c = store::capacity_of(bytes.len() as u64);
    memory_store::access::next_midpoint(bytes, c, header.count, from).map_or(
        NOTHING,
        |child| child.0,
    )
}

fn first_in(bytes: &[u8], id: u64, sought: &[u8], order: Order) -> u64
    ensures { result ≡ first_of (ord order.entry) sought.now (seen (ord order.entry) bytes.now id) }
{
    let Ok(header) = look_at(bytes, id, order) else {
        return NOTHING;
    };
    if sought.len() != 32 {
        return NOTHING;
    }
    memory_store::access::first_not_below(
        bytes,
        header.count,
        datom::datom_at(sought, 0),
        order,
    ) as u64
}

fn in_order(a: &[u8], b: &[u8], order: Order) -> u64
    ensures { result ≡ order_of (ord order.entry) a.now b.now }
{
    if a.len() != 32 {
        return NOTHING;
    }
    if b.len() != 32 {
        return NOTHING;
    }
    match order.cmp(datom::datom_at(a, 0), datom::datom_at(b, 0)) {
        Ordering::Less => 0,
        Ordering::Equal => 1,
        Ordering::Greater => 2,
    }
}

// The number that a fetch answers: 0 for a page that is given, else document 01's.
pub fn probe_fetch(store: &[u8], size: u64, count: u64, page: u64) -> u64
    ensures { result ≡ (fetch_words (fetch_answer (record { size = size; count = count }) store.now (record { 0 = page }))).number }
{
    memory_store::fetch_refusal(store, Extent { size, count }, PageId(page))
        .err()
        .map_or(0, |refusal| refusal.number())
}

fn write_in(bytes: &[u8], id: u64, free: &mut [u8], order: Order) -> u64
    ensures { (result ≡ wrote_of bytes.now free.old (seen (ord order.entry) bytes.now id)) × (free.new ≡ rewritten bytes.now free.old (seen (ord order.entry) bytes.now id)) }
{
    let Ok(header) = look_at(bytes, id, order) else {
        return 0;
    };
    let size = bytes.len();
    if free.len() != size {
        return 0;
    }
    let c = store::capacity_of(size as u64);
    let Header { level, count } = header;
    memory_store::writer::write_page(free, 0, size, c, level, bytes, c, count, 0, count);
    1
}

// The entries. Each takes an order by its number; there is nothing to say in one that is unknown.

// The first rule of document 01's "Readable" that the bytes break as page `id`, 1 to 7; 0 for a readable page; 2^64-1 where no page
// has that many bytes.
pub fn probe_rule(bytes: &[u8], id: u64, order: u64, heap: &[u8]) -> u64
    ensures { result ≡ in_good_order nothing (λ o. rule_of (seen (order_in o heap.now) bytes.now id)) (index_of order) }
{
    index::index_of(order).map_or(NOTHING, |by| rule_in(bytes, id, Order { by, heap }))
}

// The level of a readable page.
pub fn probe_level(bytes: &[u8], id: u64, order: u64, heap: &[u8]) -> u64
    ensures { result ≡ in_good_order nothing (λ o. level_of (seen (order_in o heap.now) bytes.now id)) (index_of order) }
{
    index::index_of(order).map_or(NOTHING, |by| level_in(bytes, id, Order { by, heap }))
}

// The number of its datoms.
pub fn probe_count(bytes: &[u8], id: u64, order: u64, heap: &[u8]) -> u64
    ensures { result ≡ in_good_order nothing (λ o. count_of (seen (order_in o heap.now) bytes.now id)) (index_of order) }
{
    index::index_of(order).map_or(NOTHING, |by| count_in(bytes, id, Order { by, heap }))
}

// Word j of the datom at index i: 0 entity, 1 attribute, 2 value, 3 last word.
pub fn probe_word(bytes: &[u8], id: u64, i: usize, j: usize, order: u64, heap: &[u8]) -> u64
    ensures { result ≡ in_good_order nothing (λ o. word_of i j (seen (order_in o heap.now) bytes.now id)) (index_of order) }
{
    index::index_of(order).map_or(NOTHING, |by| word_in(bytes, id, i, j, Order { by, heap }))
}

// The child at index i.
pub fn probe_child(bytes: &[u8], id: u64, i: usize, order: u64, heap: &[u8]) -> u64
    ensures { result ≡ in_good_order nothing (λ o. child_of i (seen (order_in o heap.now) bytes.now id)) (index_of order) }
{
    index::index_of(order).map_or(NOTHING, |by| child_in(bytes, id, i, Order { by, heap }))
}

// The first real child at or after an index.
pub fn probe_next(bytes: &[u8], id: u64, from: usize, order: u64, heap: &[u8]) -> u64
    ensures { result ≡ in_good_order nothing (λ o. next_of from (seen (order_in o heap.now) bytes.now id)) (index_of order) }
{
    index::index_of(order).map_or(NOTHING, |by| next_in(bytes, id, from, Order { by, heap }))
}

// The index of the first datom that is not below the one whose 32 bytes are given.
pub fn probe_first(bytes: &[u8], id: u64, sought: &[u8], order: u64, heap: &[u8]) -> u64
    ensures { result ≡ in_good_order nothing (λ o. first_of (order_in o heap.now) sought.now (seen (order_in o heap.now) bytes.now id)) (index_of order) }
{
    index::index_of(order).map_or(
        NOTHING,
        |by| first_in(bytes, id, sought, Order { by, heap }),
    )
}

// How two datoms compare, each given by its 32 bytes: 0 below, 1 equal, 2 above.
pub fn probe_order(a: &[u8], b: &[u8], order: u64, heap: &[u8]) -> u64
    ensures { result ≡ in_good_order nothing (λ o. order_of (order_in o heap.now) a.now b.now) (index_of order) }
{
    index::index_of(order).map_or(NOTHING, |by| in_order(a, b, Order { by, heap }))
}

// A readable page is written anew into a free one of the same length: 1 if so, and 0 with nothing changed if not. A match and no closure,
// whose proof would have to say what it wrote through what it captured.
pub fn probe_write(bytes: &[u8], id: u64, free: &mut [u8], order: u64, heap: &[u8]) -> u64
    ensures { (result ≡ in_good_order 0 (λ o. wrote_of bytes.now free.old (seen (order_in o heap.now) bytes.now id)) (index_of order)) × (free.new ≡ in_good_order free.old (λ o. rewritten bytes.now free.old (seen (order_in o heap.now) bytes.now id)) (index_of order)) }
{
    match index::index_of(order) {
        Some(by) => write_in(bytes, id, free, Order { by, heap }),
        None => 0,
    }
}
