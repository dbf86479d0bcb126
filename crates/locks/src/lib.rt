// The steps of a running transaction on sound words: start, the lock at first access, the working value, prepare, save.
// Each leaves what the rules' step of that name leaves.
#![tactic(auto, using(lookups::proofs::Fitting::bounds))]

ghost use Rattle.std.specs.Prelude.{◌≡◌, ◌<◌, ◌≤◌, ◌^◌, T, length};
ghost use Rattle.rules.specs.Sets.{width, has};
ghost use Rattle.rules.specs.Tables.{chain_room, last_number, object, sets_of, chain};
ghost use Rattle.rules.specs.Steps.{start as started, free_places, take_lock, set_working, prepare as prepared, save as saved};
ghost use Rattle.rules.specs.Layout.{sound_words, unpack, pack};
ghost use Rattle.calls.specs.Meaning.{txn_of, object_of, IsLive};
ghost use Rattle.locks_laws.specs.Left.{depends_too};

use calls::{Live, Object, Txn};
use lent::Tables;

// Gives the next number to the lowest free place.
pub fn start(words: &mut [u64])
    requires { T (sound_words words.old) × ((unpack words.old).next.num ≤ last_number) × (0 < free_places (unpack words.old)) }
    ensures { words.new ≡ pack (started (unpack words.old)) }
{
    let p = sets::lowest(lookups::free_places(&Tables { words })) as usize;
    let x = Txn {
        num: words[layout::NEXT],
    };
    words[layout::NUMBER + p] = x.num;
    words[layout::NEXT] = x.num + 1;
}

// The dependencies d, and the place of the transaction y if y is live. Free places have the number 0, which names nobody.
fn and_depends_on(t: &Tables, d: u64, y: Txn) -> u64
    requires { d < 2 ^ width }
    ensures { result ≡ depends_too t.now.words.now d (txn_of y) }
{
    let nobody = y == calls::NOBODY;
    if nobody {
        return d;
    }
    match lookups::place_of(t, y) {
        Some(p) => sets::with(d, p.num),
        None => d,
    }
}

// The lock of an object for a live transaction, at its first access.
pub fn lock(words: &mut [u64], live: Live, o: Object)
    requires { T (sound_words words.old) × IsLive (unpack words.old) live }
    ensures { words.new ≡ pack (take_lock (unpack words.old) (txn_of live.who) (object_of o)) }
{
    let i = o.num;
    let p = live.place.num;
    let latest = lookups::latest(&Tables { words }, o);
    let accessed = sets::with(words[layout::ACCESSED + p], i);
    let depends = and_depends_on(&Tables { words }, words[layout::DEPENDS + p], latest.writer);
    words[layout::HOLDER + i] = live.who.num;
    words[layout::WORKING + i] = latest.value;
    words[layout::ACCESSED + p] = accessed;
    let at = layout::DEPENDS + p;
    words[at] = depends;
}

// The working value of an object that a live transaction holds, set anew; the object is written.
pub fn set_working_value(words: &mut [u64], live: Live, o: Object, v: u64)
    requires { T (sound_words words.old) × IsLive (unpack words.old) live }
    ensures { words.new ≡ pack (set_working (unpack words.old) (txn_of live.who) (object_of o) v) }
{
    let i = o.num;
    let p = live.place.num;
    let written = sets::with(words[layout::WRITTEN + p], i);
    words[layout::WORKING + i] = v;
    words[layout::WRITTEN + p] = written;
}

// Frees the lock of an object that a live transaction holds, and queues the working value if it was written.
pub fn prepare(words: &mut [u64], live: Live, o: Object)
    requires { T (sound_words words.old) × IsLive (unpack words.old) live
        × (T (has (sets_of (unpack words.old).live (txn_of live.who)).written o.num) → length (chain (object (unpack words.old) (object_of o))) < chain_room) }
    ensures { words.new ≡ pack (prepared (unpack words.old) (txn_of live.who) (object_of o)) }
{
    let i = o.num;
    let p = live.place.num;
    let was_written = sets::has(words[layout::WRITTEN + p], i);
    let prepared = sets::with(words[layout::PREPARED + p], i);
    let value = words[layout::WORKING + i];
    let saved = words[layout::SAVED_COUNT + i];
    let queued = words[layout::QUEUED_COUNT + i];
    words[layout::HOLDER + i] = 0;
    words[layout::WORKING + i] = 0;
    words[layout::PREPARED + p] = prepared;
    if was_written {
        let end = 8 * i + (saved + queued) as usize;
        words[layout::CHAIN_VALUE + end] = value;
        words[layout::CHAIN_WRITER + end] = live.who.num;
        words[layout::QUEUED_COUNT + i] = queued + 1;
    }
}

// All queued entries of an object become saved; gives how many.
pub fn save(words: &mut [u64], o: Object) -> u64
    requires { T (sound_words words.old) }
    ensures { (result ≡ length (object (unpack words.old) (object_of o)).queued) × (words.new ≡ pack (saved (unpack words.old) (object_of o))) }
{
    let i = o.num;
    let saved = words[layout::SAVED_COUNT + i];
    let queued = words[layout::QUEUED_COUNT + i];
    words[layout::SAVED_COUNT + i] = saved + queued;
    words[layout::QUEUED_COUNT + i] = 0;
    queued
}
