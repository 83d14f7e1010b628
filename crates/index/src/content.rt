// Values by what they stand for: integers before byte strings, these before max. Only here does a comparison read the heap.
ghost use Rattle.std.specs.Prelude.{◌≡◌, length, drop, true};
ghost use Prim.Native.Nat.{◌≤◌, compare};
ghost use Rattle.heap.specs.Constant.{bytes_at};
ghost use Rattle.datom.specs.Value.{content, int, str, offset_of};
ghost use Rattle.std.specs.declared.cmp.Ordering.TheVariants.{Less};
ghost use Rattle.index.specs.Order.{and_then, cmp_bytes, cmp_content, cmp_value, is_less, named};
ghost use Rattle.index.specs.Kinds.{kind_of, rank};

use datom::Value;
use std::cmp::Ordering;

// The kinds of content, in their order.
#[derive(Clone, Copy, PartialEq, Eq, PartialOrd, Ord)]
enum Kind {
    Integer,
    Text,
    Top,
}

// Which kind of content a value stands for. One that cannot be read is taken for max.
fn kind_of(v: Value, heap: &[u8]) -> Kind
    ensures { rank result ≡ kind_of (content heap.now v) }
{
    if v.0 < Value::TAG_EXTERNAL {
        return Kind::Integer;
    }
    if v.0 < Value::TAG_BYTES {
        return if heap::has_word(heap, v.offset()) {
            Kind::Integer
        } else {
            Kind::Top
        };
    }
    if v.0 < Value::TAG_MASK {
        return if v.is_bytes() { Kind::Text } else { Kind::Top };
    }
    if v.is_max() {
        return Kind::Top;
    }
    if heap::has_bytes(heap, v.offset()) {
        Kind::Text
    } else {
        Kind::Top
    }
}

// The integer that a value stands for.
fn integer_of(v: Value, heap: &[u8]) -> u64
    requires { kind_of (content heap.now v) ≡ 0 }
    ensures { content heap.now v ≡ int result }
{
    if v.is_u64() {
        return v.0;
    }
    heap::get_u64(heap, v.offset())
}

// By unsigned bytes from index `from` on, a proper prefix first.
fn order_of_bytes_from(a: &[u8], b: &[u8], from: usize) -> Ordering
    requires { (from ≤ length a.now) × (from ≤ length b.now) }
    ensures { result ≡ named (cmp_bytes (drop from a.now) (drop from b.now)) }
{
    for i in from..a.len().min(b.len()) {
        if a[i] != b[i] {
            return a[i].cmp(&b[i]);
        }
    }
    a.len().cmp(&b.len())
}

// By unsigned bytes, a proper prefix first: eight at a time as one number, the first of them highest, and what is left one by one.
fn order_of_bytes(a: &[u8], b: &[u8]) -> Ordering
    ensures { result ≡ named (cmp_bytes a.now b.now) }
{
    let end = a.len().min(b.len());
    let mut i = 0;
    // No count over a range: eight at a time, as long as both have eight.
    while 8 <= end - i {
        let x = store::word(a, i).swap_bytes();
        let y = store::word(b, i).swap_bytes();
        if x != y {
            return x.cmp(&y);
        }
        i += 8;
    }
    order_of_bytes_from(a, b, i)
}

// Whether both have eight bytes, of which those of the first are below.
fn first_rises(a: &[u8], b: &[u8]) -> bool
    ensures { result ≡ true → Less ≡ named (cmp_bytes a.now b.now) }
{
    if a.len() < 8 {
        return false;
    }
    if b.len() < 8 {
        return false;
    }
    store::word(a, 0).swap_bytes() < store::word(b, 0).swap_bytes()
}

// A byte string that a value stands for against bytes. One that stands in the word itself is laid out first.
fn order_of_text(v: Value, b: &[u8], heap: &[u8]) -> Ordering
    requires { kind_of (content heap.now v) ≡ 1 }
    ensures { result ≡ named (cmp_content (content heap.now v) (str b.now)) }
{
    if v.is_external() {
        return order_of_bytes(heap::get_bytes(heap, v.offset()), b);
    }
    let n = (v.0 / Value::LENGTH_BIT % 64) as usize;
    let mut word = [0; 8];
    store::put_word(&mut word, 0, v.0);
    order_of_bytes(&word[0..n], b)
}

// Two byte strings that values stand for.
fn order_of_texts(a: Value, b: Value, heap: &[u8]) -> Ordering
    requires { (kind_of (content heap.now a) ≡ 1) × (kind_of (content heap.now b) ≡ 1) }
    ensures { result ≡ named (cmp_content (content heap.now a) (content heap.now b)) }
{
    if b.is_external() {
        return order_of_text(a, heap::get_bytes(heap, b.offset()), heap);
    }
    let n = (b.0 / Value::LENGTH_BIT % 64) as usize;
    let mut word = [0; 8];
    store::put_word(&mut word, 0, b.0);
    order_of_text(a, &word[0..n], heap)
}

// Two values, by the kinds of what they stand for and then by that.
fn order_of_kinds(a: Value, b: Value, heap: &[u8]) -> Ordering
    ensures { result ≡ named (cmp_value heap.now a b) }
{
    let v = kind_of(a, heap);
    let w = kind_of(b, heap);
    if v != w {
        return v.cmp(&w);
    }
    match v {
        Kind::Integer => integer_of(a, heap).cmp(&integer_of(b, heap)),
        Kind::Text => order_of_texts(a, b, heap),
        Kind::Top => Ordering::Equal,
    }
}

// Whether a value names a byte string that is there: if so it stands for its bytes.
fn names_text(v: Value, heap: &[u8]) -> bool
    ensures { result ≡ true → content heap.now v ≡ str (bytes_at heap.now (offset_of v)) }
{
    if v.0 < Value::TAG_MASK {
        return false;
    }
    if v.is_max() {
        return false;
    }
    heap::has_bytes(heap, v.offset())
}

// Two values, by what they stand for. Most that come here name two byte strings, which are compared where they lie.
pub fn order_of_contents(a: Value, b: Value, heap: &[u8]) -> Ordering
    ensures { result ≡ named (cmp_value heap.now a b) }
{
    if !names_text(a, heap) {
        return order_of_kinds(a, b, heap);
    }
    if !names_text(b, heap) {
        return order_of_kinds(a, b, heap);
    }
    order_of_bytes(
        heap::get_bytes(heap, a.offset()),
        heap::get_bytes(heap, b.offset()),
    )
}

// Whether two values name byte strings of which the first is below by its first eight bytes: so of most that rise, and of no others.
fn texts_rise(a: Value, b: Value, heap: &[u8]) -> bool
    ensures { result ≡ true → Less ≡ named (cmp_value heap.now a b) }
{
    if !names_text(a, heap) {
        return false;
    }
    if !names_text(b, heap) {
        return false;
    }
    first_rises(
        heap::get_bytes(heap, a.offset()),
        heap::get_bytes(heap, b.offset()),
    )
}

// Whether value, entity, last word of a datom are below those of another: what is left of every order behind its first words. Where long
// texts rise, as they do all along a page, their first bytes tell. It takes words, as `order_of_behind` does.
pub fn is_below_behind(a: Value, b: Value, x: u64, y: u64, s: u64, t: u64, heap: &[u8]) -> bool
    ensures { result ≡ is_less (and_then (cmp_value heap.now a b) (and_then (compare x y) (compare s t))) }
{
    if texts_rise(a, b, heap) {
        return true;
    }
    crate::order_of_behind(a, b, x, y, s, t, heap).is_lt()
}
