// The kinds of records, by the number in a record's first word (docs/ORACLE.md, "Format").

#[derive(Clone, Copy, PartialEq, Eq)]
pub enum Kind {
    // A record without a first word reads as one of this kind.
    Empty,
    Begin,
    Initialise,
    Insert,
    List,
    Check,
    Poke,
    End,
    Named,
    Heap,
    Stored,
}

// A number that is no kind.
#[derive(Clone, Copy)]
pub struct UnknownKind(pub u64);

impl TryFrom<u64> for Kind {
    type Error = UnknownKind;

    fn try_from(number: u64) -> Result<Kind, UnknownKind> {
        match number {
            0 => Ok(Kind::Empty),
            1 => Ok(Kind::Begin),
            2 => Ok(Kind::Initialise),
            3 => Ok(Kind::Insert),
            4 => Ok(Kind::List),
            5 => Ok(Kind::Check),
            6 => Ok(Kind::Poke),
            7 => Ok(Kind::End),
            8 => Ok(Kind::Named),
            9 => Ok(Kind::Heap),
            10 => Ok(Kind::Stored),
            _ => Err(UnknownKind(number)),
        }
    }
}

impl Kind {
    // Whether a record of this kind has an answer of the oracles, and says in its second word which of them gave it.
    pub fn is_of_oracles(self) -> bool {
        match self {
            Kind::Empty | Kind::Initialise | Kind::Insert | Kind::List | Kind::Check => true,
            Kind::Begin | Kind::Poke | Kind::End | Kind::Named | Kind::Heap | Kind::Stored => false,
        }
    }
}
