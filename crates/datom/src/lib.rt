// Datoms and what they are made of, after datom.rs of the Rust. Temporaries and text are left out.
#![tactic(auto)]

ghost use Rattle.std.specs.Prelude.{◌≡◌, ◌+◌, ◌^◌, ◌-◌, ◌≤◌, length};
ghost use Rattle.store.specs.Words.{little};
ghost use Rattle.datom.specs.Value.{max_word, is_int, is_str, is_max, is_external, offset_of, formed_value, stored_value, bound_value, inline_int, bool_int, inline_str};
ghost use Rattle.datom.specs.Datom.{datom_at, formed_datom, stored_datom, bound_datom};
ghost use Rattle.datom.specs.Word.{last_word, transaction_of, operation_of};

// The largest word: the max of every type here but the transaction's, which is even.
const MAX_WORD: u64 = 0xffff_ffff_ffff_ffff;

// Entity id. The ids, the transaction and the value have their own `min` and `max`, as in the Rust: a trait would need as many lines in an impl
// for each.
#[repr(C)]
#[derive(Clone, Copy)]
pub struct Eid(pub u64);

impl Eid {
    pub fn min() -> Eid
        ensures { result.0 ≡ 0 }
    {
        Eid(0)
    }

    pub fn max() -> Eid
        ensures { result.0 ≡ max_word }
    {
        Eid(MAX_WORD)
    }
}

// Attribute id.
#[repr(C)]
#[derive(Clone, Copy)]
pub struct Aid(pub u64);

impl Aid {
    pub fn min() -> Aid
        ensures { result.0 ≡ 0 }
    {
        Aid(0)
    }

    pub fn max() -> Aid
        ensures { result.0 ≡ max_word }
    {
        Aid(MAX_WORD)
    }
}

// Transaction number: an even one.
#[derive(Clone, Copy)]
pub struct Tid(pub u64);

impl Tid {
    pub fn min() -> Tid
        ensures { result.0 ≡ 0 }
    {
        Tid(0)
    }

    // The largest even number.
    pub fn max() -> Tid
        ensures { result.0 ≡ 2 ^ 64 - 2 }
    {
        Tid(0xffff_ffff_ffff_fffe)
    }
}

#[derive(Clone, Copy)]
pub enum Operation {
    Retract,
    Assert,
}

// Transaction number and operation in one word.
#[repr(C)]
#[derive(Clone, Copy)]
pub struct TidOp(pub u64);

impl TidOp {
    // The low bit of the word: set for an assert.
    pub const ASSERT: u64 = 1;

    // The low bit is the operation's, so an odd transaction is taken for the even one below it.
    pub fn new(transaction: Tid, operation: Operation) -> TidOp
        ensures { result ≡ last_word transaction operation }
    {
        let even = transaction.0 / 2 * 2;
        match operation {
            Operation::Retract => TidOp(even),
            Operation::Assert => TidOp(even + TidOp::ASSERT),
        }
    }

    pub fn transaction(self) -> Tid
        ensures { result ≡ transaction_of self }
    {
        Tid(self.0 / 2 * 2)
    }

    pub fn operation(self) -> Operation
        ensures { result ≡ operation_of self }
    {
        if self.0 % 2 == TidOp::ASSERT {
            return Operation::Assert;
        }
        Operation::Retract
    }
}

// An integer or a byte string of up to seven bytes in one word, the offset of a longer one on the heap, or max.
#[repr(C)]
#[derive(Clone, Copy)]
pub struct Value(pub u64);

impl Value {
    // Only the bit that marks a value outside the word.
    pub const TAG_EXTERNAL: u64 = 0x4000_0000_0000_0000;

    // Only the bit that marks a byte string.
    pub const TAG_BYTES: u64 = 0x8000_0000_0000_0000;

    // Both tag bits.
    pub const TAG_MASK: u64 = 0xc000_0000_0000_0000;

    // A byte string's length stands from this bit on.
    pub const LENGTH_BIT: u64 = 0x100_0000_0000_0000;

    // The most bytes that stand in the word itself.
    pub const MAX_LENGTH: u64 = 7;

    pub fn min() -> Value
        ensures { result.0 ≡ 0 }
    {
        Value(0)
    }

    // Above every other value: for bounds, never stored.
    pub fn max() -> Value
        ensures { result.0 ≡ max_word }
    {
        Value(MAX_WORD)
    }

    pub fn is_max(self) -> bool
        ensures { result ≡ is_max self }
    {
        self.0 == MAX_WORD
    }

    // Whether this is an inline integer.
    pub fn is_u64(self) -> bool
        ensures { result ≡ is_int self }
    {
        self.0 < Value::TAG_EXTERNAL
    }

    // Whether this is an inline byte string: the tag, a length of at most seven, and zeros past it.
    pub fn is_bytes(self) -> bool
        ensures { result ≡ is_str self }
    {
        if self.0 & Value::TAG_MASK != Value::TAG_BYTES {
            return false;
        }
        let length = self.0 / Value::LENGTH_BIT % 64;
        if Value::MAX_LENGTH < length {
            return false;
        }
        self.0 % Value::LENGTH_BIT < past(length)
    }

    // Whether this names a constant, or is max: the bit that marks a value outside the word.
    pub fn is_external(self) -> bool
        ensures { result ≡ is_external self }
    {
        self.0 / Value::TAG_EXTERNAL % 2 == 1
    }

    // Where the constant that this names lies on the heap.
    pub fn offset(self) -> u64
        ensures { result ≡ offset_of self }
    {
        self.0 % Value::TAG_EXTERNAL
    }

    // Whether a batch may have this word, whatever the heap holds.
    pub fn is_formed(self) -> bool
        ensures { result ≡ formed_value self }
    {
        if self.0 < Value::TAG_BYTES {
            return true;
        }
        if self.0 < Value::TAG_MASK {
            return self.is_bytes();
        }
        !self.is_max()
    }

    // Whether a stored datom may have this value: a constant that it names is looked at where it stands.
    pub fn is_stored(self, heap: &[u8]) -> bool
        ensures { result ≡ stored_value heap.now self }
    {
        if self.0 < Value::TAG_EXTERNAL {
            return true;
        }
        if self.0 < Value::TAG_BYTES {
            return heap::is_u64_at(heap, self.offset());
        }
        if self.0 < Value::TAG_MASK {
            return self.is_bytes();
        }
        if self.is_max() {
            return false;
        }
        heap::is_bytes_at(heap, self.offset())
    }

    // Whether a bound may have this value.
    pub fn is_bound(self, heap: &[u8]) -> bool
        ensures { result ≡ bound_value heap.now self }
    {
        if self.is_max() {
            return true;
        }
        self.is_stored(heap)
    }

    // An integer that stands in the word itself, if it is small enough.
    pub fn from_u64_inline(value: u64) -> Option<Value>
        ensures { result ≡ inline_int value }
    {
        if value < Value::TAG_EXTERNAL {
            return Some(Value(value));
        }
        None
    }

    pub fn from_bool(value: bool) -> Value
        ensures { result ≡ bool_int value }
    {
        if value { Value(1) } else { Value(0) }
    }

    // A byte string that stands in the word itself, if it has at most seven bytes.
    pub fn from_bytes_inline(bytes: &[u8]) -> Option<Value>
        ensures { result ≡ inline_str bytes.now }
    {
        let n = bytes.len() as u64;
        if Value::MAX_LENGTH < n {
            return None;
        }
        let word = joined(bytes);
        Some(Value(Value::TAG_BYTES + n * Value::LENGTH_BIT + word))
    }
}

// A few bytes as a number, the first one lowest.
fn joined(bytes: &[u8]) -> u64
    requires { length bytes.now ≤ 7 }
    ensures { result ≡ little bytes.now }
{
    let mut word = 0;
    for i in (0..bytes.len()).rev() {
        word = u64::from(bytes[i]) + 256 * word;
    }
    word
}

// The first number that n bytes do not hold.
fn past(n: u64) -> u64
    requires { n ≤ 7 }
    ensures { result ≡ 256 ^ n }
{
    1 << (8 * n)
}

// A fact about an entity, with the transaction that asserted or retracted it. It lies in memory as a C struct of four words.
#[repr(C)]
#[derive(Clone, Copy)]
pub struct Datom {
    pub entity: Eid,
    pub attribute: Aid,
    pub value: Value,
    pub transaction_operation: TidOp,
}

impl Datom {
    pub fn new(
        entity: Eid,
        attribute: Aid,
        value: Value,
        transaction: Tid,
        operation: Operation,
    ) -> Datom
        ensures { result ≡ record { entity = entity; attribute = attribute; value = value; transaction_operation = last_word transaction operation } }
    {
        let word = TidOp::new(transaction, operation);
        Datom {
            entity,
            attribute,
            value,
            transaction_operation: word,
        }
    }

    // Shorthand for `new` with an assert.
    pub fn assert(entity: Eid, attribute: Aid, value: Value, transaction: Tid) -> Datom
        ensures { result ≡ record { entity = entity; attribute = attribute; value = value; transaction_operation = last_word transaction Operation.Assert } }
    {
        Datom::new(entity, attribute, value, transaction, Operation::Assert)
    }

    // Shorthand for `new` with a retract.
    pub fn retract(entity: Eid, attribute: Aid, value: Value, transaction: Tid) -> Datom
        ensures { result ≡ record { entity = entity; attribute = attribute; value = value; transaction_operation = last_word transaction Operation.Retract } }
    {
        Datom::new(entity, attribute, value, transaction, Operation::Retract)
    }

    // Whether a batch may have this datom, whatever the heap holds.
    pub fn is_formed(self) -> bool
        ensures { result ≡ formed_datom self }
    {
        self.value.is_formed()
    }

    // Whether this datom may be stored.
    pub fn is_stored(self, heap: &[u8]) -> bool
        ensures { result ≡ stored_datom heap.now self }
    {
        self.value.is_stored(heap)
    }

    // Whether this datom may be a bound.
    pub fn is_bound(self, heap: &[u8]) -> bool
        ensures { result ≡ bound_datom heap.now self }
    {
        self.value.is_bound(heap)
    }
}

// The datom whose 32 bytes stand at byte `at`.
pub fn datom_at(s: &[u8], at: usize) -> Datom
    requires { at + 32 ≤ length s.now }
    ensures { result ≡ datom_at s.now at }
{
    let entity = store::word(s, at);
    let attribute = store::word(s, at + 8);
    let value = store::word(s, at + 16);
    let last = store::word(s, at + 24);
    Datom {
        entity: Eid(entity),
        attribute: Aid(attribute),
        value: Value(value),
        transaction_operation: TidOp(last),
    }
}
