// The orders of datoms, after index.rs of the Rust. Their rule and its laws stand in specs/.
#![tactic(auto)]

pub mod content;

ghost use Rattle.std.specs.Prelude.{◌≡◌};
ghost use Prim.Native.Nat.{compare};
ghost use Rattle.index.specs.Order.{and_then, cmp_value, index_of, ord, order_in, named};
ghost use Rattle.index.specs.Parts.{place_of, first, second};
ghost use Rattle.index.specs.Front.{both_integers, by_entity, by_value, second_decides};
ghost use Rattle.index.specs.Key.{key, turned};

use datom::{Datom, Value};
use std::cmp::Ordering;

// Which order a tree is in: by entity, attribute, value and last word, or by attribute first, with the entity or the value behind it.
#[derive(Clone, Copy)]
pub enum Index {
    Eavt,
    Aevt,
    Avet,
}

// The order of a tree: how the parts of its datoms come, and the heap in use, by whose constants they compare.
#[derive(Clone, Copy)]
pub struct Order<'a> {
    pub by: Index,
    pub heap: &'a [u8],
}

impl<'a> Order<'a> {
    // How two datoms stand to each other in this order.
    pub fn cmp(self, a: Datom, b: Datom) -> Ordering
        ensures { result ≡ named ((ord self.entry).cmp a b) }
    {
        order_of(a, b, self.by, self.heap)
    }
}

// The order that a number names in a store's record, if it names one.
pub fn index_of(number: u64) -> Option<Index>
    ensures { result ≡ index_of number }
{
    match number {
        0 => Some(Index::Eavt),
        1 => Some(Index::Aevt),
        2 => Some(Index::Avet),
        _ => None,
    }
}

// Where the first two words that an order goes by stand in a datom's bytes. Two functions and not one that is told which word: it would be told by a
// number, of which there are two.
pub fn first_place(by: Index) -> usize
    ensures { result ≡ place_of (first by) }
{
    match by {
        Index::Eavt => 0,
        Index::Aevt => 8,
        Index::Avet => 8,
    }
}

pub fn second_place(by: Index) -> usize
    ensures { result ≡ place_of (second by) }
{
    match by {
        Index::Eavt => 8,
        Index::Aevt => 0,
        Index::Avet => 16,
    }
}

// The seven low bytes, the first of them highest.
fn turn(v: u64) -> u64
    ensures { result ≡ turned v }
{
    v.swap_bytes() / 256
}

// The key of max and of what is malformed: above the key of every byte string.
const TOP_KEY: u64 = 0x8000_0000_0000_0000;

// A number that is ordered as the value is, so that no comparison walks along bytes. Integers stay below the tag, byte strings stand
// from it on.
fn key_of(v: Value) -> u64
    ensures { result ≡ key v }
{
    if v.is_u64() {
        return v.0;
    }
    if v.is_bytes() {
        return Value::TAG_EXTERNAL + (turn(v.0) * 8 + v.0 / Value::LENGTH_BIT % 64);
    }
    TOP_KEY
}

// Whether two values are integers that stand in their words. The bits of both are looked at as one number.
fn are_integers(a: Value, b: Value) -> bool
    ensures { result ≡ both_integers a b }
{
    (a.0 | b.0) < Value::TAG_EXTERNAL
}

// Two values, by what they stand for. No value that stands in the word itself has the bit that marks the others.
fn order_of_values(a: Value, b: Value, heap: &[u8]) -> Ordering
    ensures { result ≡ named (cmp_value heap.now a b) }
{
    if !a.is_external() {
        if !b.is_external() {
            return key_of(a).cmp(&key_of(b));
        }
    }
    content::order_of_contents(a, b, heap)
}

// Which word an order goes by first, and whether the value comes straight behind the attribute.
fn is_by_entity(by: Index) -> bool
    ensures { result ≡ by_entity by }
{
    matches!(by, Index::Eavt)
}

fn is_by_value(by: Index) -> bool
    ensures { result ≡ by_value by }
{
    matches!(by, Index::Avet)
}

// Whether the second words of an order are different and tell which datom is below: small ones tell whatever they are, and of the others those
// that are no values.
pub fn second_decides(u: u64, v: u64, by: Index) -> bool
    ensures { result ≡ second_decides by u v }
{
    if u == v {
        return false;
    }
    if (u | v) < Value::TAG_EXTERNAL {
        return true;
    }
    !is_by_value(by)
}

// Value, entity, last word: what an order asks of behind the attribute, where the entity does not tell before. It takes words and no datoms,
// which would have to be put into memory for the call.
fn order_of_behind(a: Value, b: Value, x: u64, y: u64, s: u64, t: u64, heap: &[u8]) -> Ordering
    ensures { result ≡ named (and_then (cmp_value heap.now a b) (and_then (compare x y) (compare s t))) }
{
    order_of_values(a, b, heap).then(x.cmp(&y)).then(s.cmp(&t))
}

// How two datoms stand to each other in a tree's order, by the constants of the heap in use: the first difference decides. The first two
// words are compared here, as far as they tell by themselves, in one piece: the compiler puts this into every loop over datoms, and
// nothing that is longer.
pub fn order_of(a: Datom, b: Datom, by: Index, heap: &[u8]) -> Ordering
    ensures { result ≡ named ((order_in by heap.now).cmp a b) }
{
    if is_by_entity(by) {
        if a.entity.0 < b.entity.0 {
            return Ordering::Less;
        }
        if b.entity.0 < a.entity.0 {
            return Ordering::Greater;
        }
    }
    if a.attribute.0 < b.attribute.0 {
        return Ordering::Less;
    }
    if b.attribute.0 < a.attribute.0 {
        return Ordering::Greater;
    }
    if is_by_value(by) {
        if are_integers(a.value, b.value) {
            if a.value.0 < b.value.0 {
                return Ordering::Less;
            }
            if b.value.0 < a.value.0 {
                return Ordering::Greater;
            }
        }
    } else {
        if a.entity.0 < b.entity.0 {
            return Ordering::Less;
        }
        if b.entity.0 < a.entity.0 {
            return Ordering::Greater;
        }
    }
    order_of_behind(
        a.value,
        b.value,
        a.entity.0,
        b.entity.0,
        a.transaction_operation.0,
        b.transaction_operation.0,
        heap,
    )
}
