// Frames: a line to a call or to none, an answer to its line. A call's line is its kind (2 digits), transaction (8),
// object (2) and value (16), an answer's its number (2) and value (16), each with a line feed. Digits are lower-case
// hexadecimal, high digits first. specs/Parts.antt says what each function here gives.
#![tactic(auto)]

mod digits;

ghost use Rattle.std.specs.Prelude.{◌≡◌, ◌++◌, ◌≤◌, length, drop};
ghost use Rattle.rules.specs.Frames.{fields_of, unused_zero, digits, read_frame, write_answer};
ghost use Rattle.calls.specs.Meaning.{kind_of, call_with, answer_of};
ghost use Rattle.frames.specs.Uses.{uses_as};
ghost use Rattle.frames.specs.Parsed.{parsed_as};
ghost use Rattle.frames.specs.Parts.{asked};

use calls::{Answer, Call, Kind, Obj, Txn};
pub use digits::Digits;
use digits::{CHARACTERS, NO_DIGIT};

const LINE_FEED: u8 = 10;

// The fields of a call that its kind uses.
#[derive(Clone, Copy)]
struct Uses {
    transaction: bool,
    object: bool,
    value: bool,
}

const NO_FIELD: Uses = Uses {
    transaction: false,
    object: false,
    value: false,
};

const TRANSACTION: Uses = Uses {
    transaction: true,
    object: false,
    value: false,
};

const OBJECT: Uses = Uses {
    transaction: false,
    object: true,
    value: false,
};

const VALUE: Uses = Uses {
    transaction: false,
    object: false,
    value: true,
};

const TRANSACTION_AND_OBJECT: Uses = Uses {
    transaction: true,
    object: true,
    value: false,
};

const ALL: Uses = Uses {
    transaction: true,
    object: true,
    value: true,
};

// The fields that each kind uses, from kind 01 on. A static: a constant table would be made anew at each use (12.4 ns a line
// for 11.9).
static USES: [Uses; 12] = [
    NO_FIELD,
    TRANSACTION_AND_OBJECT,
    ALL,
    TRANSACTION_AND_OBJECT,
    OBJECT,
    TRANSACTION,
    TRANSACTION,
    OBJECT,
    VALUE,
    NO_FIELD,
    TRANSACTION,
    OBJECT,
];

// The fields that a kind uses.
fn fields(kind: Kind) -> Uses
    ensures { uses_as result ≡ fields_of (kind_of kind) }
{
    USES[kind as usize - 1]
}

// Tells whether every field that a kind does not use is zero: one expression over plain numbers, without a branch.
fn unused_zero(kind: Kind, who: Txn, what: Obj, value: u64) -> bool
    ensures { result ≡ unused_zero (call_with kind who what value) }
{
    let uses = fields(kind);
    (uses.transaction | (who.num == 0))
        & (uses.object | (what.num == 0))
        & (uses.value | (value == 0))
}

// What four fields ask.
fn ask(number: u64, who: Txn, what: Obj, value: u64) -> Option<Call>
    ensures { parsed_as result ≡ asked number who.num what.num value }
{
    let Ok(kind) = Kind::try_from(number) else {
        return None;
    };
    if !unused_zero(kind, who, what, value) {
        return None;
    }
    Some(Call {
        kind,
        who,
        what,
        value,
    })
}

impl Digits {
    // A line, its line feed included, as the rules read it; none where it is no frame: another length, character or kind, or a
    // nonzero unused field.
    pub fn read(&self, line: &[u8]) -> Option<Call>
        ensures { parsed_as result ≡ read_frame line.now }
    {
        let other_length = line.len() != 29;
        if other_length {
            return None;
        }
        if line[28] != LINE_FEED {
            return None;
        }
        let kind = self.number(&line[..2]);
        let who = self.number(&line[2..10]);
        let what = self.number(&line[10..12]);
        let high = self.number(&line[12..20]);
        let low = self.number(&line[20..28]);
        let all_digits = (kind < NO_DIGIT)
            & (who < NO_DIGIT)
            & (what < NO_DIGIT)
            & (high < NO_DIGIT)
            & (low < NO_DIGIT);
        if !all_digits {
            return None;
        }
        ask(
            kind,
            Txn { num: who },
            Obj { num: what as usize },
            high * 0x1_0000_0000 + low,
        )
    }
}

// Writes a number as so many digits as the room has bytes. The last digit comes first: it is what a division leaves. By
// index, since of what a loop over `iter_mut().rev()` writes a proof knows nothing.
fn put(room: &mut [u8], number: u64)
    ensures { room.new ≡ digits (length room.old) number }
{
    let mut rest = number;
    for i in (0..room.len()).rev() {
        room[i] = CHARACTERS[(rest % 16) as usize];
        rest /= 16;
    }
}

// Writes an answer's line into the first 19 bytes of the room, from its end to its beginning.
pub fn write(room: &mut [u8], answer: Answer)
    requires { 19 ≤ length room.old }
    ensures { room.new ≡ write_answer (answer_of answer) ++ drop 19 room.old }
{
    room[18] = LINE_FEED;
    put(&mut room[2..18], answer.value);
    put(&mut room[..2], answer.number);
}
