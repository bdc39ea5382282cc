// What the kinds share whatever the width: a request, what numbers 3 to 5 say of it, and the laws of a step by its number.
#![tactic(auto)]

ghost use Rattle.std.specs.Prelude.{◌≡◌, ◌≤◌, ◌<◌};
ghost use Rattle.request_laws.specs.Answer.{refusal_number};
ghost use Rattle.request_laws.specs.Kind.{Named, kind_number};

// The fields of a step's record.
#[derive(Clone, Copy)]
pub struct Request {
    pub kind: usize,
    pub who: usize,
    pub zeros: usize,
    pub a: usize,
    pub b: usize,
    pub c: usize,
}

// The kinds of step, by the numbers of documents 01 and 02.
#[derive(Clone, Copy, Debug, PartialEq, Eq)]
pub enum Kind {
    New = 1,
    Load = 2,
    Store = 3,
    Barrier = 4,
    Hand = 5,
    Drop = 6,
    Read = 7,
    Write = 8,
    Begin = 9,
    Scan = 10,
    Trace = 11,
    Clean = 12,
    Finish = 13,
    Due = 14,
    Undirty = 15,
}

impl TryFrom<usize> for Kind {
    type Error = Refusal;

    ghost try_from_gives = { Named };

    fn try_from(n: usize) -> Result<Kind, Refusal> {
        match n {
            1 => Ok(Kind::New),
            2 => Ok(Kind::Load),
            3 => Ok(Kind::Store),
            4 => Ok(Kind::Barrier),
            5 => Ok(Kind::Hand),
            6 => Ok(Kind::Drop),
            7 => Ok(Kind::Read),
            8 => Ok(Kind::Write),
            9 => Ok(Kind::Begin),
            10 => Ok(Kind::Scan),
            11 => Ok(Kind::Trace),
            12 => Ok(Kind::Clean),
            13 => Ok(Kind::Finish),
            14 => Ok(Kind::Due),
            15 => Ok(Kind::Undirty),
            _ => Err(Refusal::Unknown),
        }
    }
}

impl From<Kind> for usize {
    ghost from_gives = { λ kind n. (n ≡ kind_number kind) × (1 ≤ n) × (n < 16) };

    fn from(kind: Kind) -> usize {
        kind as usize
    }
}

// What refuses a step, by document 01's numbers.
#[derive(Clone, Copy, Debug, PartialEq, Eq)]
pub enum Refusal {
    Unknown = 3,
    OffDesk = 4,
    Owing = 5,
    NoObject = 6,
    PastEnd = 7,
    BadSize = 8,
    NoRoom = 9,
    WrongPhase = 10,
    NothingToDo = 11,
}

impl From<Refusal> for u8 {
    ghost from_gives = { λ refusal n. n ≡ refusal_number refusal };

    fn from(refusal: Refusal) -> u8 {
        refusal as u8
    }
}
