// The steps that end transactions, move versions on and lose them, on sound words: commit, undo, settle, crash, restart;
// and fresh tables. Each leaves what the rules' step of that name leaves. The words are the lent slice, as document 01 names it,
// and their length a clause: a struct around the `&mut` would have to say in each contract that they are the same words still.
#![tactic(auto)]

mod objects;

ghost use Rattle.std.specs.Prelude.{◌≡◌, cond, ℕ, List, ◌+◌, ◌<◌, ◌^◌, T, length};
ghost use Rattle.rules.specs.Sets.{width, has};
ghost use Rattle.rules.specs.Tables.{object_count, place_count, log_room, fresh as fresh_tables};
ghost use Rattle.rules.specs.Steps.{commit as committed, undo as undone_all, settle as settled_at, settle_count, crash as crashed_at, crash_count, restart as restarted, live_count};
ghost use Rattle.rules.specs.Layout.{log_count_at, depends_at, queued_count_at, word_count, sound_words, unpack, pack, word};
ghost use Rattle.calls.specs.Meaning.{IsLive, txn_of, object_of};
ghost use Rattle.ends_laws.specs.Loops.{loop};
ghost use Rattle.ends_laws.specs.Places.{free_words, add_record as record_added};
ghost use Rattle.ends_laws.specs.Commit.{strike as struck};
ghost use Rattle.ends_laws.specs.Undo.{undo_object as undone_object, undo_place as undone_place};
ghost use Rattle.ends_laws.specs.Crash.{crash_object as crashed_object};
ghost use Rattle.ends_laws.specs.Restart.{wipe as wiped, used_count, settle_first};
ghost use Rattle.ends_laws.specs.Fresh.{OneFirst};
ghost use Rattle.ends.specs.Closed.{Closed};
ghost use Rattle.ends.specs.Turns.{Takes, Leaves};

use calls::{Live, Object, Place, Txn};
use lent::Tables;

// ---- turns

// Not for strike_all, crash and settle_all: their steps ask more of the words than their length, or give a number. One function
// over a trait of what is made of a number proves too: the trait and its impls take 24 lines, the second function 12.

// Takes a step at each object.
fn each_object<F: Fn(&mut [u64], Object)>(words: &mut [u64], step: F)
    requires { (length words.old ≡ word_count) × Takes F.Fn step }
    ensures { (leaves : ℕ → List ℕ → List ℕ) → Leaves F.Fn step (λ o. leaves o.num)
        → words.new ≡ loop object_count leaves words.old }
{
    for i in 0..32 {
        step(words, Object { num: i });
    }
}

// Takes a step at each place.
fn each_place<F: Fn(&mut [u64], Place)>(words: &mut [u64], step: F)
    requires { (length words.old ≡ word_count) × Takes F.Fn step }
    ensures { (leaves : ℕ → List ℕ → List ℕ) → Leaves F.Fn step (λ p. leaves p.num)
        → words.new ≡ loop place_count leaves words.old }
{
    for p in 0..32 {
        step(words, Place { num: p });
    }
}

// ---- fresh tables

// The next number is 1, and the log is empty.
fn fresh_log(words: &mut [u64])
    requires { length words.old ≡ word_count }
    ensures { OneFirst words.new 514 }
{
    let log = [0u64; layout::LOG_ROOM];
    words[layout::NEXT] = 1;
    words[layout::LOG_COUNT] = 0;
    words[layout::LOG..layout::NUMBER].copy_from_slice(&log);
}

// Nothing past the log.
fn zero_rest(words: &mut [u64])
    requires { (length words.old ≡ word_count) × OneFirst words.old 514 }
    ensures { OneFirst words.new word_count }
{
    words[layout::NUMBER..layout::WORDS].fill(0);
}

// Makes the words fresh, whatever they held.
pub fn fresh(words: &mut [u64])
    requires { length words.old ≡ word_count }
    ensures { words.new ≡ pack fresh_tables }
{
    fresh_log(words);
    zero_rest(words);
}

// ---- commit

// Adds the next log record, for the transaction x.
fn add_record(words: &mut [u64], x: Txn)
    requires { (length words.old ≡ word_count) × (word words.old log_count_at < log_room) }
    ensures { words.new ≡ record_added x.num words.old }
{
    let count = words[layout::LOG_COUNT];
    words[layout::LOG + count as usize] = x.num;
    words[layout::LOG_COUNT] = count + 1;
}

// Strikes place p from the dependencies of place q.
fn strike(words: &mut [u64], p: Place, q: Place)
    requires { (length words.old ≡ word_count) × (word words.old (depends_at + q.num) < 2 ^ width) }
    ensures { words.new ≡ struck p.num q.num words.old }
{
    words[layout::DEPENDS + q.num] = sets::without(words[layout::DEPENDS + q.num], p.num);
}

// Strikes place p from all dependencies.
fn strike_all(words: &mut [u64], p: Place)
    requires { (length words.old ≡ word_count)
        × ((q : ℕ) → q < place_count → word words.old (depends_at + q) < 2 ^ width) }
    ensures { words.new ≡ loop place_count (struck p.num) words.old }
{
    for q in 0..32 {
        strike(words, p, Place { num: q });
    }
}

// Frees a place.
fn free_place(words: &mut [u64], p: Place)
    requires { length words.old ≡ word_count }
    ensures { words.new ≡ free_words p.num words.old }
{
    let p = p.num;
    words[layout::NUMBER + p] = 0;
    words[layout::ACCESSED + p] = 0;
    words[layout::WRITTEN + p] = 0;
    words[layout::PREPARED + p] = 0;
    words[layout::DEPENDS + p] = 0;
}

// Adds the next log record for a live transaction, frees its place, strikes that from all dependency sets.
pub fn commit(words: &mut [u64], live: Live)
    requires { T (sound_words words.old) × IsLive (unpack words.old) live × (length (unpack words.old).log < log_room) }
    ensures { words.new ≡ pack (committed (unpack words.old) (txn_of live.who)) }
{
    add_record(words, live.who);
    strike_all(words, live.place);
    free_place(words, live.place);
}

// ---- undo

// Frees place p if it is one of f.
fn undo_place(words: &mut [u64], f: u64, p: Place)
    requires { length words.old ≡ word_count }
    ensures { words.new ≡ undone_place f p.num words.old }
{
    if sets::has(f, p.num) {
        free_place(words, p);
    }
}

// Those at the places f lose their locks, chain entries and places. f has whoever depends on one of it.
pub fn undo(words: &mut [u64], f: u32)
    requires { T (sound_words words.old) × Closed (unpack words.old).live f }
    ensures { words.new ≡ pack (undone_all (unpack words.old) f) }
{
    // The objects first: who falls goes by the places.
    let f = f as u64;
    each_object(words, |ws, o| objects::undo_object(ws, f, o));
    each_place(words, |ws, p| undo_place(ws, f, p));
}

// ---- crash

// Frees the lock of object o and drops its queued entries, if it is one of the set; gives how many.
fn crash_object(words: &mut [u64], objects: u64, o: Object) -> u64
    requires { length words.old ≡ word_count }
    ensures { (result ≡ cond (has objects o.num) (word words.old (queued_count_at + o.num)) 0)
        × (words.new ≡ crashed_object objects o.num words.old) }
{
    let i = o.num;
    if sets::has(objects, i) {
        let saved = words[layout::SAVED_COUNT + i];
        let dropped = words[layout::QUEUED_COUNT + i];
        objects::keep_saved(words, o, saved);
        dropped
    } else {
        0
    }
}

// Frees the locks of the objects of a set and drops their queued entries; gives how many were dropped.
pub fn crash(words: &mut [u64], objects: u32) -> u64
    requires { T (sound_words words.old) }
    ensures { (result ≡ crash_count (unpack words.old) objects)
        × (words.new ≡ pack (crashed_at (unpack words.old) objects)) }
{
    let mut dropped = 0;
    for i in 0..32 {
        dropped += crash_object(words, objects as u64, Object { num: i });
    }
    dropped
}

// ---- settle

// The leading logged entries of object o leave its chain, the last of them becomes the stable version; gives how many.
pub fn settle(words: &mut [u64], o: Object) -> u64
    requires { T (sound_words words.old) }
    ensures { (result ≡ settle_count (unpack words.old) (object_of o))
        × (words.new ≡ pack (settled_at (unpack words.old) (object_of o))) }
{
    let k = objects::settle_number(words, o);
    if k == 0 {
        return 0;
    }
    let last = lookups::writer_at(words, o, k as usize - 1);
    let n = lookups::log_number(&Tables { words }, last);
    objects::settle_object(words, o, k as usize, n);
    k
}

// ---- restart

// How many places are used.
fn count_used(words: &[u64]) -> u64
    requires { length words.now ≡ word_count }
    ensures { result ≡ used_count words.now }
{
    words[layout::NUMBER..layout::ACCESSED]
        .iter()
        .filter(|n| **n != 0)
        .count() as u64
}

// Settles every object.
fn settle_all(words: &mut [u64])
    requires { T (sound_words words.old) }
    ensures { words.new ≡ pack (settle_first object_count (unpack words.old)) }
{
    for i in 0..32 {
        settle(words, Object { num: i });
    }
}

// Only durable parts remain, logged entries are settled, no one is live; gives how many were.
pub fn restart(words: &mut [u64]) -> u64
    requires { T (sound_words words.old) }
    ensures { (result ≡ live_count (unpack words.old))
        × (words.new ≡ pack (restarted (unpack words.old))) }
{
    let used = count_used(words);
    settle_all(words);
    // Every object keeps its stable version alone.
    each_object(words, |ws, o| objects::keep_saved(ws, o, 0));
    each_place(words, |ws, p| free_place(ws, p));
    used
}
