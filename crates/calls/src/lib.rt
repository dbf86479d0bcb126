// The numbers, the calls and the answers as the code has them: transaction, log and object numbers are three types, so
// that none serves as another. Each is as wide as a word of the tables, so that what is read there is wrapped as it is.
// specs/Meaning.antt says which of the rules' numbers, calls and answers each stands for.
#![tactic(auto)]

mod call;
mod existing;

ghost use Rattle.std.specs.Prelude.{◌≡◌};
ghost use Rattle.rules.specs.Answers.{number_of};
ghost use Rattle.calls.specs.Meaning.{refusal_of, answer_of};
ghost use Rattle.calls.specs.Kinds.{named_as, kind_named};

pub use call::Call;
pub use existing::{Live, Object, Place};

// A transaction number; 0 names nobody.
#[derive(Clone, Copy, PartialEq, Eq, PartialOrd, Ord)]
pub struct Txn {
    pub num: u64,
}

pub const NOBODY: Txn = Txn { num: 0 };

// A log number; 0 names no record.
#[derive(Clone, Copy, PartialEq, Eq, PartialOrd, Ord)]
pub struct Lsn {
    pub num: u64,
}

pub const NO_RECORD: Lsn = Lsn { num: 0 };

// An object number; those from 32 on name no object.
#[derive(Clone, Copy, PartialEq, Eq, PartialOrd, Ord)]
pub struct Obj {
    pub num: usize,
}

// The twelve kinds of call, each under its number.
#[derive(Clone, Copy, PartialEq, Eq)]
pub enum Kind {
    Start = 1,
    Read = 2,
    Write = 3,
    Prepare = 4,
    Save = 5,
    Commit = 6,
    Abort = 7,
    Settle = 8,
    Crash = 9,
    Restart = 10,
    Status = 11,
    Look = 12,
}

// A number that is no kind's.
#[derive(Clone, Copy, PartialEq, Eq)]
pub struct UnknownKind;

impl TryFrom<u64> for Kind {
    type Error = UnknownKind;

    ghost try_from_gives = { λ number r. named_as r ≡ kind_named number };

    #[tactic(auto, unfolding(rules::specs::Frames::kinds))]
    fn try_from(number: u64) -> Result<Self, UnknownKind> {
        match number {
            1 => Ok(Kind::Start),
            2 => Ok(Kind::Read),
            3 => Ok(Kind::Write),
            4 => Ok(Kind::Prepare),
            5 => Ok(Kind::Save),
            6 => Ok(Kind::Commit),
            7 => Ok(Kind::Abort),
            8 => Ok(Kind::Settle),
            9 => Ok(Kind::Crash),
            10 => Ok(Kind::Restart),
            11 => Ok(Kind::Status),
            12 => Ok(Kind::Look),
            _ => Err(UnknownKind),
        }
    }
}

// Why a call is not done, or a line is no call: each reason under its number.
#[derive(Clone, Copy, PartialEq, Eq)]
pub enum Refusal {
    Unsound = 1,
    NoSuchObject = 2,
    NeverGivenOut = 3,
    NoLongerLive = 4,
    AfterAPrepare = 5,
    Lost = 6,
    Wait = 7,
    Died = 8,
    NotAccessed = 9,
    PreparedBefore = 10,
    ChainFull = 11,
    Unprepared = 12,
    Unsaved = 13,
    DependencyLive = 14,
    LogFull = 15,
    PlacesFull = 16,
    NumbersSpent = 17,
    BadFrame = 18,
}

impl From<Refusal> for u64 {
    ghost from_gives = { λ why number. number ≡ number_of (refusal_of why) };

    #[tactic(auto, unfolding(rules::specs::Answers::number_of))]
    fn from(why: Refusal) -> u64 {
        why as u64
    }
}

// An answer: the number of the scope paper's table, and the value given with it. It comes back to C in two registers.
#[repr(C)]
#[derive(Clone, Copy)]
pub struct Answer {
    pub number: u64,
    pub value: u64,
}

impl Answer {
    // To a call that is done.
    pub fn done(value: u64) -> Self
        ensures { answer_of result ≡ record { number = 0; value = value } }
    {
        Answer { number: 0, value }
    }

    // To a call that is refused, or a line that is no call.
    pub fn refused(why: Refusal, value: u64) -> Self
        ensures { answer_of result ≡ record { number = number_of (refusal_of why); value = value } }
    {
        Answer {
            number: u64::from(why),
            value,
        }
    }
}
