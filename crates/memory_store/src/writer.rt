// The page writer: the one place that stores into the store.
ghost use Rattle.std.specs.Prelude.{◌≡◌, ◌+◌, ◌*◌, ◌≤◌, length};
ghost use Rattle.store.specs.Words.{patch};
ghost use Rattle.store.specs.Size.{most_size};
ghost use Rattle.rules.specs.Page.{node_of, encode_page};
ghost use Rattle.rules.specs.Node.{part_of};

// Datoms i..i+a and children i..=i+a of the node of n datoms in an area with room for m become a page of the free part, at byte `at`
// of it. Every byte of the page is stored, so that it is the same whatever stood there. The free part is all of the store that is lent.
pub fn write_page(
    free: &mut [u8],
    at: usize,
    size: usize,
    c: usize,
    level: usize,
    area: &[u8],
    m: usize,
    n: usize,
    i: usize,
    a: usize,
)
    requires { (at + size ≤ length free.old) × (40 * c + 10 ≤ size) × (size ≤ most_size) × (level ≤ 255) × (40 * m + 8 ≤ length area.now) × (n ≤ m) × (i + a ≤ n) × (a ≤ c) }
    ensures { free.new ≡ patch free.old at (encode_page size c (part_of i a (node_of m level n area.now))) }
{
    let from = 32 * i;
    store::put_padded(free, at, 32 * c, &area[from..from + 32 * a]);
    let child = 32 * m + 8 * i;
    store::put_padded(
        free,
        at + 32 * c,
        8 * c + 8,
        &area[child..child + (8 * a + 8)],
    );
    let header = [level as u8, a as u8];
    store::put_padded(free, at + (40 * c + 8), size - (40 * c + 8), &header);
}
