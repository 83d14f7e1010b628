// Page ids, page sizes and the store's record, after store.rs of the Rust.
#![tactic(auto)]

ghost use Rattle.std.specs.Prelude.{◌≡◌, ◌+◌, ◌-◌, ◌*◌, ◌≤◌, length};
ghost use Rattle.store.specs.Words.{bytes_of, word_at, word_of, zeros, pad, patch};
ghost use Rattle.store.specs.Size.{capacity};
ghost use Rattle.store.specs.Page.{page, none, is_none};
ghost use Rattle.store.specs.Record.{extent_of};

// The number of a page, counted from the front of the store.
#[derive(Clone, Copy, PartialEq, Eq)]
pub struct PageId(pub u64);

impl PageId {
    // The number that means "none".
    pub const NONE: u64 = 0xffff_ffff_ffff_ffff;

    // The page id that means "none": no page has it.
    pub fn max() -> PageId
        ensures { result ≡ none }
    {
        PageId(PageId::NONE)
    }

    // Whether this is "none" and no page.
    pub fn is_none(self) -> bool
        ensures { result ≡ is_none self }
    {
        self.0 == PageId::NONE
    }
}

// The store's record: what a caller hands over beside the lent store and heap.
#[derive(Clone, Copy)]
pub struct StoreRecord {
    // The bytes of a page.
    pub size: u64,
    // The pages in use; those past them are free.
    pub count: u64,
    // The bytes of the heap in use; those past them are free.
    pub heap: u64,
    // The order of the tree, by its number.
    pub order: u64,
}

// What of the record is about pages.
#[derive(Clone, Copy)]
pub struct Extent {
    pub size: u64,
    pub count: u64,
}

impl StoreRecord {
    pub fn extent(self) -> Extent
        ensures { result ≡ extent_of self }
    {
        Extent {
            size: self.size,
            count: self.count,
        }
    }
}

// How many datoms a page of this size holds; 0 for a size that is not known.
pub fn capacity_of(size: u64) -> usize
    ensures { result ≡ capacity size }
{
    match size {
        256 => 6,
        568 => 13,
        4096 => 102,
        8192 => 204,
        _ => 0,
    }
}

// The word that stands at byte `at`: one load to the compiler.
pub fn word(s: &[u8], at: usize) -> u64
    requires { at + 8 ≤ length s.now }
    ensures { result ≡ word_at s.now at }
{
    u64::from_le_bytes([
        s[at],
        s[at + 1],
        s[at + 2],
        s[at + 3],
        s[at + 4],
        s[at + 5],
        s[at + 6],
        s[at + 7],
    ])
}

// The child at index i of a page, or of an area laid out as one, with room for m datoms: the children stand behind these.
pub fn child_at(s: &[u8], m: usize, i: usize) -> PageId
    requires { 32 * m + 8 * i + 8 ≤ length s.now }
    ensures { result ≡ page (word_at s.now (32 * m + 8 * i)) }
{
    PageId(word(s, 32 * m + 8 * i))
}

// All of `p` goes into `s` from byte `at` on: one copying of memory to the compiler, which asks C for memcpy. The library's `copy_from_slice`
// asks for memmove, and the archive may ask for no more than memcpy and memset (tests/florin/callers.sh).
pub fn put(s: &mut [u8], at: usize, p: &[u8])
    requires { at + length p.now ≤ length s.old }
    ensures { s.new ≡ patch s.old at p.now }
{
    for i in 0..p.len() {
        s[at + i] = p[i];
    }
}

// The eight bytes of `w` go into `s` from byte `at` on.
pub fn put_word(s: &mut [u8], at: usize, w: u64)
    requires { at + 8 ≤ length s.old }
    ensures { s.new ≡ patch s.old at (bytes_of 8 w) }
{
    put(s, at, &w.to_le_bytes());
}

// Zeros go into `s` from byte `at` up to byte `end`: one clearing of memory to the compiler. The library's `fill` sets the last byte apart.
fn clear(s: &mut [u8], at: usize, end: usize)
    requires { (at ≤ end) × (end ≤ length s.old) }
    ensures { s.new ≡ patch s.old at (zeros (end - at)) }
{
    for i in at..end {
        s[i] = 0;
    }
}

// All of `p` goes into `s` from byte `at` on, with zeros behind it, `room` bytes in all.
pub fn put_padded(s: &mut [u8], at: usize, room: usize, p: &[u8])
    requires { (length p.now ≤ room) × (at + room ≤ length s.old) }
    ensures { s.new ≡ patch s.old at (pad room p.now) }
{
    put(s, at, p);
    clear(s, at + p.len(), at + room);
}
