// A cursor in bytes, as a C caller keeps it between calls.
ghost use Rattle.std.specs.Prelude.{ℕ, ◌≡◌, ◌+◌, ◌≤◌, length};
ghost use Rattle.store.specs.Words.{little, bytes_of, cells, spread, patch};
ghost use Rattle.store.specs.Page.{page};
ghost use Rattle.florinwick.specs.Cursor.{cursor_bytes, cursor_in};

use answer::Cursor;
use store::PageId;

// How many bytes a cursor has.
pub const BYTES: usize = 264;

// What a cursor has eight of: an index or a page id, a word each.
trait Word: Copy {
    ghost word: { Self → ℕ };

    ghost of_word: { ℕ → Self };

    fn word(self) -> u64
        ensures { result ≡ word self };

    fn of_word(n: u64) -> Self
        ensures { result ≡ of_word n };
}

impl Word for u64 {
    ghost word = { λ index. index };

    ghost of_word = { λ n. n };

    fn word(self) -> u64 {
        self
    }

    fn of_word(n: u64) -> u64 {
        n
    }
}

impl Word for PageId {
    ghost word = { λ page. page.0 };

    ghost of_word = { page };

    fn word(self) -> u64 {
        self.0
    }

    fn of_word(n: u64) -> PageId {
        PageId(n)
    }
}

// One by one: a loop would have to fill the array with something first.
fn eight_in<W: Word>(s: &[u8]) -> [W; 8]
    requires { 64 ≤ length s.now }
    ensures { result ≡ cells (λ p. W.of_word (little p)) 8 8 s.now }
{
    [
        W::of_word(store::word(s, 0)),
        W::of_word(store::word(s, 8)),
        W::of_word(store::word(s, 16)),
        W::of_word(store::word(s, 24)),
        W::of_word(store::word(s, 32)),
        W::of_word(store::word(s, 40)),
        W::of_word(store::word(s, 48)),
        W::of_word(store::word(s, 56)),
    ]
}

pub fn cursor_in(s: &[u8; BYTES]) -> Cursor
    ensures { result ≡ cursor_in s.now }
{
    let height = store::word(s, 0);
    let begin_indices = eight_in(&s[8..]);
    let begin_pages = eight_in(&s[72..]);
    let end_indices = eight_in(&s[136..]);
    let end_pages = eight_in(&s[200..]);
    Cursor {
        height,
        begin_indices,
        begin_pages,
        end_indices,
        end_pages,
    }
}

fn put_eight<W: Word>(s: &mut [u8], at: usize, words: [W; 8])
    requires { at + 64 ≤ length s.old }
    ensures { s.new ≡ patch s.old at (spread (λ x. bytes_of 8 (W.word x)) words) }
{
    for i in 0..8 {
        store::put_word(s, at + 8 * i, words[i].word());
    }
}

pub fn put_cursor(s: &mut [u8; BYTES], cursor: Cursor)
    ensures { s.new ≡ cursor_bytes cursor }
{
    let begin_indices = cursor.begin_indices;
    let begin_pages = cursor.begin_pages;
    let end_indices = cursor.end_indices;
    let end_pages = cursor.end_pages;
    store::put_word(s, 0, cursor.height);
    put_eight(s, 8, begin_indices);
    put_eight(s, 72, begin_pages);
    put_eight(s, 136, end_indices);
    put_eight(s, 200, end_pages);
}
