// Reading the recorded answers: a record is its length in bytes and then so many bytes, in words (docs/ORACLE.md, "Format"). What a
// record does not have reads as 0 or as an empty part, and then differs from what was answered.
ghost use Rattle.std.specs.Prelude.{◌≤◌, length, IfOk, IfSome};

use std::io;
use std::io::{ErrorKind, Read};

// The modulus of the digests.
const MODULUS: u64 = 4294967291;

// The part of n bytes from byte `from` on.
pub fn part(bytes: &[u8], from: u64, n: u64) -> &[u8] {
    let Some(end) = from.checked_add(n) else {
        return &[];
    };
    bytes.get(from as usize..end as usize).unwrap_or_default()
}

// The digest of what came before, continued by some bytes.
pub fn digest(before: u64, bytes: &[u8]) -> u64 {
    bytes.iter().fold(before, |digest, byte| {
        (digest % MODULUS * 31 + u64::from(*byte)) % MODULUS
    })
}

// The bytes of a record.
#[derive(Clone, Copy)]
pub struct Record<'a>(pub &'a [u8]);

impl<'a> Record<'a> {
    // The word of this index.
    pub fn word(self, index: usize) -> u64 {
        if self.0.len() / 8 <= index {
            return 0;
        }
        store::word(self.0, 8 * index)
    }

    // The part of n bytes from byte `from` on.
    pub fn part(self, from: u64, n: u64) -> &'a [u8] {
        part(self.0, from, n)
    }

    // What stands behind the first n bytes.
    pub fn behind(self, n: usize) -> &'a [u8] {
        self.0.get(n..).unwrap_or_default()
    }

    // Whether bytes are those that the record has from this word on: whole, or by their digest.
    pub fn agrees(self, mode: usize, bytes: &[u8]) -> bool
        requires { mode ≤ 1000 }
    {
        if self.word(mode) == 0 {
            return digest(0, bytes) == self.word(mode + 1);
        }
        bytes == self.part(8 * (mode as u64) + 8, bytes.len() as u64)
    }
}

// Reads until the buffer is full, and says whether there were so many bytes before the end.
fn read_full<R: Read>(input: &mut R, buffer: &mut [u8]) -> io::Result<bool> {
    match input.read_exact(buffer) {
        Ok(()) => Ok(true),
        Err(e) if e.kind() == ErrorKind::UnexpectedEof => Ok(false),
        Err(e) => Err(e),
    }
}

// The next record, from the input; none at the end, at a record of no bytes, or where no whole record follows.
pub fn next<'a, R: Read>(input: &mut R, buffer: &'a mut [u8]) -> io::Result<Option<Record<'a>>>
    ensures { IfOk result (λ read. IfSome read (λ recorded. length recorded.0.now ≤ length buffer.old)) }
{
    let mut head = [0u8; 8];
    if !read_full(input, &mut head)? {
        return Ok(None);
    }
    let n = store::word(&head, 0) as usize;
    if n == 0 || buffer.len() < n {
        return Ok(None);
    }
    if !read_full(input, &mut buffer[..n])? {
        return Ok(None);
    }
    Ok(Some(Record(&buffer[..n])))
}
