// Pages of 8192 bytes: the example beside k and l, and a tree of three levels. tests/oracle/examples.txt has what the Rust makes of them.
ghost use Rattle.std.specs.Prelude.{◌≤◌};

use crate::examples::Page;
use crate::lent::{Cursor, Lent};
use crate::{examples, record};
use std::io;

const SIZE: u64 = 8192;

// A tree of d(0), d(1), ..: its root, and beside it whether every batch went in, since a tree that is not whole is told of too.
#[derive(Clone, Copy)]
struct Tree {
    root: u64,
    is_whole: bool,
}

// The first 128 datoms, in an empty store.
fn begun(lent: &mut Lent) -> Tree {
    let answer = examples::initialise(lent, SIZE, 128);
    Tree {
        root: answer.root(),
        is_whole: answer.number() == 0,
    }
}

// The tree with the n datoms from d(from) on.
fn with_batch(lent: &mut Lent, tree: Tree, from: u64, n: u64) -> Tree
    requires { (from ≤ 1000000) × (n ≤ 128) }
{
    let mut batch = [0u8; 4128];
    examples::put_datoms(&mut batch, from, n);
    let answer = lent.insert(tree.root, examples::first(&batch, n));
    lent.grow(answer.pages());
    Tree {
        root: answer.root(),
        is_whole: tree.is_whole && answer.number() == 0,
    }
}

// The tree with so many batches of 128 more, behind the first 128 datoms.
fn with_batches(lent: &mut Lent, tree: Tree, batches: u64) -> Tree
    requires { batches ≤ 1000 }
{
    let mut grown = tree;
    for i in 1..=batches {
        grown = with_batch(lent, grown, 128 * i, 128);
    }
    grown
}

// Whether these are the words of d(k).
fn is_datom(datom: &[u8; 32], k: u64) -> bool {
    store::word(datom, 0) == k
        && store::word(datom, 8) == 1
        && store::word(datom, 16) == k
        && store::word(datom, 24) == 3
}

// Whether the next n datoms of a listing are d(0), d(1), .., and the end is behind them.
fn is_counted(lent: &Lent, cursor: &mut Cursor, n: u64) -> bool {
    for i in 0..n {
        let Ok(Some(datom)) = lent.next_datom(cursor) else {
            return false;
        };
        if !is_datom(&datom, i) {
            return false;
        }
    }
    matches!(lent.next_datom(cursor), Ok(None))
}

// Whether the tree lists its n datoms from d(0) on, up to a bound above them all.
fn is_listed(lent: &Lent, tree: Tree, n: u64) -> bool {
    let mut cursor = [0u8; 264];
    let answer = lent.start(tree.root, &[0u8; 32], &[255u8; 32], &mut cursor);
    answer.number() == 0 && is_counted(lent, &mut cursor, n)
}

fn is_sound(lent: &Lent, tree: Tree) -> bool {
    lent.check(tree.root).number() == 0
}

// The tree in one line, its pages by the digest of the recorded answers.
fn say(rt: &impl Print, lent: &Lent, tree: Tree, n: u64) -> io::Result<()> {
    let pages = lent.stored.count;
    let root = Page::of(lent, tree.root);
    let digest = record::digest(0, lent.pages(0, pages));
    print!(rt;
        "{SIZE}-byte pages, {n} datoms: {pages} pages, root {} at level {}; ",
        tree.root,
        root.level()
    )?;
    print!(rt;
        "in the root: {}, from d{} on; digest {digest}; ",
        root.count(),
        root.first()
    )?;
    if tree.is_whole && is_sound(lent, tree) && is_listed(lent, tree, n) {
        return rt.write_all(b"sound, and lists them all\n");
    }
    rt.write_all(b"NOT WHOLE\n")
}

// 205 datoms: two pages of 102 and one datom above them. 232 batches of 128: three levels.
pub fn run(rt: &impl Print, lent: &mut Lent) -> io::Result<()> {
    rt.write_all(b"\npages of 8192 bytes\n")?;
    let one = begun(lent);
    let two = with_batch(lent, one, 128, 77);
    say(rt, lent, two, 205)?;
    println!(rt;
        "{} datoms in page 1, {} in page 2",
        Page::of(lent, 1).count(),
        Page::of(lent, 2).count()
    )?;
    let again = begun(lent);
    let three = with_batches(lent, again, 231);
    say(rt, lent, three, 29696)
}
