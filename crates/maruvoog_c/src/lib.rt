// The archive for C: each call of maruvoog under its C name, with the same promise. The C interface needs the sixteen twice, since a
// crate is a library or a static library, and `maruvoog` is the one that crates stand on. It holds no code of its own: what a call
// does and why stands in crates/maruvoog; include/mv.h declares the calls.
#![tactic(auto)]

ghost use Rattle.std.specs.Prelude.{◌≡◌};
ghost use Rattle.rules.specs.Answers.{is_start, is_read, is_write, is_prepare, is_save, is_commit, is_abort, is_settle, is_crash, is_restart, is_status, is_look};
ghost use Rattle.rules.specs.Layout.{word_count};
ghost use Rattle.rules.specs.Session.{call_words, fresh_words, line_words, run_words};
ghost use Rattle.refusals.specs.Reasons.{asking};
ghost use Rattle.maruvoog.specs.Promised.{Leaves, Runs};

use calls::Answer;

// How many words the tables are.
#[unsafe(no_mangle)]
pub extern "C" fn mv_word_count() -> usize
    ensures { result ≡ word_count }
{
    maruvoog::mv_word_count()
}

// Makes the words fresh, whatever they held.
#[unsafe(no_mangle)]
pub extern "C" fn mv_fresh(words: &mut [u64]) -> Answer
    ensures { Leaves (fresh_words words.old) result words.new }
{
    maruvoog::mv_fresh(words)
}

// Starts a transaction; gives its number.
#[unsafe(no_mangle)]
pub extern "C" fn mv_start(words: &mut [u64]) -> Answer
    ensures { Leaves (call_words words.old (asking is_start 0 0 0)) result words.new }
{
    maruvoog::mv_start(words)
}

// Reads an object; gives its value.
#[unsafe(no_mangle)]
pub extern "C" fn mv_read(words: &mut [u64], txn: u32, object: u8) -> Answer
    ensures { Leaves (call_words words.old (asking is_read txn object 0)) result words.new }
{
    maruvoog::mv_read(words, txn, object)
}

// Writes a value to an object.
#[unsafe(no_mangle)]
pub extern "C" fn mv_write(words: &mut [u64], txn: u32, object: u8, value: u64) -> Answer
    ensures { Leaves (call_words words.old (asking is_write txn object value)) result words.new }
{
    maruvoog::mv_write(words, txn, object, value)
}

// Prepares an object: frees its lock and queues what was written.
#[unsafe(no_mangle)]
pub extern "C" fn mv_prepare(words: &mut [u64], txn: u32, object: u8) -> Answer
    ensures { Leaves (call_words words.old (asking is_prepare txn object 0)) result words.new }
{
    maruvoog::mv_prepare(words, txn, object)
}

// Saves an object's queued entries; gives how many.
#[unsafe(no_mangle)]
pub extern "C" fn mv_save(words: &mut [u64], object: u8) -> Answer
    ensures { Leaves (call_words words.old (asking is_save 0 object 0)) result words.new }
{
    maruvoog::mv_save(words, object)
}

// Commits a transaction; gives its log number.
#[unsafe(no_mangle)]
pub extern "C" fn mv_commit(words: &mut [u64], txn: u32) -> Answer
    ensures { Leaves (call_words words.old (asking is_commit txn 0 0)) result words.new }
{
    maruvoog::mv_commit(words, txn)
}

// Aborts a transaction with all that depend on it; gives how many fell.
#[unsafe(no_mangle)]
pub extern "C" fn mv_abort(words: &mut [u64], txn: u32) -> Answer
    ensures { Leaves (call_words words.old (asking is_abort txn 0 0)) result words.new }
{
    maruvoog::mv_abort(words, txn)
}

// Settles an object's logged entries; gives how many went.
#[unsafe(no_mangle)]
pub extern "C" fn mv_settle(words: &mut [u64], object: u8) -> Answer
    ensures { Leaves (call_words words.old (asking is_settle 0 object 0)) result words.new }
{
    maruvoog::mv_settle(words, object)
}

// The server of a set of objects stopped (bit n for object n): frees their locks, drops what was queued; gives how many.
#[unsafe(no_mangle)]
pub extern "C" fn mv_crash(words: &mut [u64], set: u64) -> Answer
    ensures { Leaves (call_words words.old (asking is_crash 0 0 set)) result words.new }
{
    maruvoog::mv_crash(words, set)
}

// Restarts from what is durable; gives how many were live.
#[unsafe(no_mangle)]
pub extern "C" fn mv_restart(words: &mut [u64]) -> Answer
    ensures { Leaves (call_words words.old (asking is_restart 0 0 0)) result words.new }
{
    maruvoog::mv_restart(words)
}

// Gives 1 for a live transaction, 2 for a committed one, 3 for an aborted one.
#[unsafe(no_mangle)]
pub extern "C" fn mv_status(words: &mut [u64], txn: u32) -> Answer
    ensures { Leaves (call_words words.old (asking is_status txn 0 0)) result words.new }
{
    maruvoog::mv_status(words, txn)
}

// Gives an object's stable value.
#[unsafe(no_mangle)]
pub extern "C" fn mv_look(words: &mut [u64], object: u8) -> Answer
    ensures { Leaves (call_words words.old (asking is_look 0 object 0)) result words.new }
{
    maruvoog::mv_look(words, object)
}

// One line with its line feed, as the stepping program reads it.
#[unsafe(no_mangle)]
pub extern "C" fn mv_line(words: &mut [u64], line: &[u8]) -> Answer
    ensures { Leaves (line_words words.old line.now) result words.new }
{
    maruvoog::mv_line(words, line)
}

// A text of many lines: takes line after line while the answers' room has 19 bytes left; gives how many it answered.
#[unsafe(no_mangle)]
pub extern "C" fn mv_run(words: &mut [u64], calls: &[u8], answers: &mut [u8]) -> Answer
    ensures { Runs (run_words words.old calls.now answers.old) result words.new answers.new }
{
    maruvoog::mv_run(words, calls, answers)
}
