// The calls that the host makes, through plain C. Each takes every input: it tests the lent words for itself, and its
// promise gives the answer and every word at exit from what came in. docs/INTERFACE.md says what each needs, answers and
// leaves; include/mv.h declares them.
#![tactic(auto)]

ghost use Rattle.std.specs.Prelude.{◌≡◌};
ghost use Rattle.rules.specs.Answers.{is_start, is_read, is_write, is_prepare, is_save, is_commit, is_abort, is_settle, is_crash, is_restart, is_status, is_look, unsound};
ghost use Rattle.rules.specs.Layout.{word_count};
ghost use Rattle.rules.specs.Session.{plainly, call_words, fresh_words, line_words, run_words};
ghost use Rattle.calls.specs.Calls.{call_of};
ghost use Rattle.calls.specs.Meaning.{kind_of, answer_of};
ghost use Rattle.refusals.specs.Reasons.{asking};
ghost use Rattle.maruvoog.specs.Promised.{Leaves, Runs};
ghost use Rattle.maruvoog.specs.Unused.{UnusedZero};

use calls::{Answer, Call, Kind, Obj, Refusal, Txn};
use frames::Digits;

// The answer to a call on words that are not sound.
fn unsound() -> Answer
    ensures { answer_of result ≡ plainly unsound }
{
    Answer::refused(Refusal::Unsound, 0)
}

// One call: 01 for words that are not sound, else what the rules say.
fn one(words: &mut [u64], c: Call) -> Answer
    ensures { Leaves (call_words words.old (call_of c)) result words.new }
{
    let refused = !tables::sound(words);
    if refused {
        return unsound();
    }
    acts::call(words, c)
}

// One call by its kind and its fields.
fn ask(words: &mut [u64], kind: Kind, txn: u32, object: u8, value: u64) -> Answer
    requires { UnusedZero kind txn object value }
    ensures { Leaves (call_words words.old (asking (kind_of kind) txn object value)) result words.new }
{
    let c = Call {
        kind,
        who: Txn { num: txn as u64 },
        what: Obj {
            num: object as usize,
        },
        value,
    };
    one(words, c)
}

// Each kind of call has an exported function: C calls it by name.

// How many words the tables are.
#[unsafe(no_mangle)]
pub extern "C" fn mv_word_count() -> usize
    ensures { result ≡ word_count }
{
    1410
}

// Makes the words fresh, whatever they held.
#[unsafe(no_mangle)]
pub extern "C" fn mv_fresh(words: &mut [u64]) -> Answer
    ensures { Leaves (fresh_words words.old) result words.new }
{
    let right_count = words.len() == 1410;
    if right_count {
        ends::fresh(words);
        Answer::done(0)
    } else {
        unsound()
    }
}

// Starts a transaction; gives its number.
#[unsafe(no_mangle)]
pub extern "C" fn mv_start(words: &mut [u64]) -> Answer
    ensures { Leaves (call_words words.old (asking is_start 0 0 0)) result words.new }
{
    ask(words, Kind::Start, 0, 0, 0)
}

// Reads an object; gives its value.
#[unsafe(no_mangle)]
pub extern "C" fn mv_read(words: &mut [u64], txn: u32, object: u8) -> Answer
    ensures { Leaves (call_words words.old (asking is_read txn object 0)) result words.new }
{
    ask(words, Kind::Read, txn, object, 0)
}

// Writes a value to an object.
#[unsafe(no_mangle)]
pub extern "C" fn mv_write(words: &mut [u64], txn: u32, object: u8, value: u64) -> Answer
    ensures { Leaves (call_words words.old (asking is_write txn object value)) result words.new }
{
    ask(words, Kind::Write, txn, object, value)
}

// Prepares an object: frees its lock and queues what was written.
#[unsafe(no_mangle)]
pub extern "C" fn mv_prepare(words: &mut [u64], txn: u32, object: u8) -> Answer
    ensures { Leaves (call_words words.old (asking is_prepare txn object 0)) result words.new }
{
    ask(words, Kind::Prepare, txn, object, 0)
}

// Saves an object's queued entries; gives how many.
#[unsafe(no_mangle)]
pub extern "C" fn mv_save(words: &mut [u64], object: u8) -> Answer
    ensures { Leaves (call_words words.old (asking is_save 0 object 0)) result words.new }
{
    ask(words, Kind::Save, 0, object, 0)
}

// Commits a transaction; gives its log number.
#[unsafe(no_mangle)]
pub extern "C" fn mv_commit(words: &mut [u64], txn: u32) -> Answer
    ensures { Leaves (call_words words.old (asking is_commit txn 0 0)) result words.new }
{
    ask(words, Kind::Commit, txn, 0, 0)
}

// Aborts a transaction with all that depend on it; gives how many fell.
#[unsafe(no_mangle)]
pub extern "C" fn mv_abort(words: &mut [u64], txn: u32) -> Answer
    ensures { Leaves (call_words words.old (asking is_abort txn 0 0)) result words.new }
{
    ask(words, Kind::Abort, txn, 0, 0)
}

// Settles an object's logged entries; gives how many went.
#[unsafe(no_mangle)]
pub extern "C" fn mv_settle(words: &mut [u64], object: u8) -> Answer
    ensures { Leaves (call_words words.old (asking is_settle 0 object 0)) result words.new }
{
    ask(words, Kind::Settle, 0, object, 0)
}

// The server of a set of objects stopped (bit n for object n): frees their locks, drops what was queued; gives how many.
#[unsafe(no_mangle)]
pub extern "C" fn mv_crash(words: &mut [u64], set: u64) -> Answer
    ensures { Leaves (call_words words.old (asking is_crash 0 0 set)) result words.new }
{
    ask(words, Kind::Crash, 0, 0, set)
}

// Restarts from what is durable; gives how many were live.
#[unsafe(no_mangle)]
pub extern "C" fn mv_restart(words: &mut [u64]) -> Answer
    ensures { Leaves (call_words words.old (asking is_restart 0 0 0)) result words.new }
{
    ask(words, Kind::Restart, 0, 0, 0)
}

// Gives 1 for a live transaction, 2 for a committed one, 3 for an aborted one.
#[unsafe(no_mangle)]
pub extern "C" fn mv_status(words: &mut [u64], txn: u32) -> Answer
    ensures { Leaves (call_words words.old (asking is_status txn 0 0)) result words.new }
{
    ask(words, Kind::Status, txn, 0, 0)
}

// Gives an object's stable value.
#[unsafe(no_mangle)]
pub extern "C" fn mv_look(words: &mut [u64], object: u8) -> Answer
    ensures { Leaves (call_words words.old (asking is_look 0 object 0)) result words.new }
{
    ask(words, Kind::Look, 0, object, 0)
}

// One line with its line feed, as the stepping program reads it.
#[unsafe(no_mangle)]
pub extern "C" fn mv_line(words: &mut [u64], line: &[u8]) -> Answer
    ensures { Leaves (line_words words.old line.now) result words.new }
{
    let digits = Digits::new();
    match digits.read(line) {
        Some(c) => one(words, c),
        None => Answer::refused(Refusal::BadFrame, 0),
    }
}

// A text of many lines: takes line after line while the answers' room has 19 bytes left; gives how many it answered.
#[unsafe(no_mangle)]
pub extern "C" fn mv_run(words: &mut [u64], calls: &[u8], answers: &mut [u8]) -> Answer
    ensures { Runs (run_words words.old calls.now answers.old) result words.new answers.new }
{
    if tables::sound(words) {
        let ran = runs::run(words, calls, answers);
        Answer::done(ran.lines as u64)
    } else {
        unsound()
    }
}
