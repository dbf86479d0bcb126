// Why a call is refused: on sound words, the first reason of the call's order whose fact holds, found by tests in that
// order.
#![tactic(auto, using(lookups::proofs::Fitting::fitting))]

ghost use Rattle.std.specs.Prelude.{◌≡◌, not, ◌||◌, List, ℕ, T, ltb};
ghost use Rattle.rules.specs.Tests.{lowest};
ghost use Rattle.rules.specs.Tables.{obj, nobody, same, object_count};
ghost use Rattle.rules.specs.Answers.{is_start, is_prepare, is_commit, is_abort, is_crash, is_status, is_missing, is_unsaved};
ghost use Rattle.rules.specs.Layout.{sound_words, unpack};
ghost use Rattle.lent.specs.Held.{held};
ghost use Rattle.calls.specs.Meaning.{txn_of, obj_of, IsLive};
ghost use Rattle.refusals.specs.Lacking.{counted_in, lacks_in, is_lacking};
ghost use Rattle.refusals.specs.Reasons.{calling, Refuses, RefusesAccess, RefusesObject, Lives, Names};

use calls::{Live, NOBODY, Obj, Object, Refusal, Txn};
use lent::Tables;
use lookups::Seated;

// Whether the number was never given out: 0, or one from the next number on.
fn never_given(t: &Tables, x: Txn) -> bool
    ensures { result ≡ (same (txn_of x) nobody || not (ltb x.num (held t.now).next.num)) }
{
    let next = Txn {
        num: t.words[layout::NEXT],
    };
    x == NOBODY || next <= x
}

// Start.
pub fn of_start(t: &Tables) -> Result<(), Refusal>
    ensures { Refuses (held t.now) (calling is_start nobody (obj 0) 0) result }
{
    let next = Txn {
        num: t.words[layout::NEXT],
    };
    let spent = 999999 < next.num;
    if spent {
        return Err(Refusal::NumbersSpent);
    }
    if lookups::free_places(t) == 0 {
        return Err(Refusal::PlacesFull);
    }
    Ok(())
}

// Save, settle and look, which name an object alone.
pub fn of_object(o: Obj) -> Result<(), Refusal>
    ensures { RefusesObject (obj_of o) result }
{
    let is_object = o.num < layout::OBJECTS;
    if is_object {
        Ok(())
    } else {
        Err(Refusal::NoSuchObject)
    }
}

// Crash, whose value is a set of objects.
pub fn of_set(v: u64) -> Result<(), Refusal>
    ensures { (ws : List ℕ) → T (sound_words ws) → Refuses (unpack ws) (calling is_crash nobody (obj 0) v) result }
{
    let too_large = 4294967296 <= v;
    if too_large {
        Err(Refusal::NoSuchObject)
    } else {
        Ok(())
    }
}

// Status.
pub fn of_status(t: &Tables, x: Txn) -> Result<(), Refusal>
    ensures { Refuses (held t.now) (calling is_status (txn_of x) (obj 0) 0) result }
{
    if never_given(t, x) {
        Err(Refusal::NeverGivenOut)
    } else {
        Ok(())
    }
}

// What a call that names a transaction is first refused for. A live one was given out, so that is not asked of it.
pub fn of_transaction(s: &Seated) -> Result<Live, Refusal>
    ensures { Lives (held s.now.tables) (txn_of s.now.who) result }
{
    if let Some(place) = s.seat {
        return Ok(Live { who: s.who, place });
    }
    if never_given(&s.tables, s.who) {
        return Err(Refusal::NeverGivenOut);
    }
    Err(Refusal::NoLongerLive)
}

// What read, write and prepare are first refused for: they name an object and a transaction.
fn of_names(s: &Seated, o: Obj) -> Result<(Live, Object), Refusal>
    ensures { Names (held s.now.tables) (txn_of s.now.who) (obj_of o) result }
{
    let no_object = layout::OBJECTS <= o.num;
    if no_object {
        return Err(Refusal::NoSuchObject);
    }
    let live = of_transaction(s)?;
    Ok((live, Object { num: o.num }))
}

// Abort.
pub fn of_abort(s: &Seated) -> Result<(), Refusal>
    ensures { Refuses (held s.now.tables) (calling is_abort (txn_of s.now.who) (obj 0) 0) result }
{
    of_transaction(s)?;
    Ok(())
}

// Read and write.
pub fn of_access(s: &Seated, o: Obj) -> Result<(), Refusal>
    ensures { RefusesAccess (held s.now.tables) (txn_of s.now.who) (obj_of o) result }
{
    let t = &s.tables;
    let (live, o) = of_names(s, o)?;
    let x = live.who;
    let p = live.place.num;
    if t.words[layout::PREPARED + p] != 0 {
        return Err(Refusal::AfterAPrepare);
    }
    let holder = lookups::holder(t.words, o);
    if sets::has(t.words[layout::ACCESSED + p], o.num) {
        let held = holder == x;
        if held {
            return Ok(());
        }
        return Err(Refusal::Lost);
    }
    if holder == NOBODY {
        return Ok(());
    }
    let older = x < holder;
    if older {
        Err(Refusal::Wait)
    } else {
        Err(Refusal::Died)
    }
}

// Prepare.
pub fn of_prepare(s: &Seated, o: Obj) -> Result<(), Refusal>
    ensures { Refuses (held s.now.tables) (calling is_prepare (txn_of s.now.who) (obj_of o) 0) result }
{
    let t = &s.tables;
    let (live, o) = of_names(s, o)?;
    let p = live.place.num;
    if !sets::has(t.words[layout::ACCESSED + p], o.num) {
        return Err(Refusal::NotAccessed);
    }
    if sets::has(t.words[layout::PREPARED + p], o.num) {
        return Err(Refusal::PreparedBefore);
    }
    if lookups::holder(t.words, o) != live.who {
        return Err(Refusal::Lost);
    }
    if sets::has(t.words[layout::WRITTEN + p], o.num) {
        let full = layout::CHAIN_ROOM <= counted(t, o, true);
        if full {
            return Err(Refusal::ChainFull);
        }
    }
    Ok(())
}

// How many entries of an object's chain count: the saved ones, with the queued ones or without.
fn counted(t: &Tables, o: Object, queued: bool) -> usize
    ensures { result ≡ counted_in t.now.words.now queued o.num }
{
    let i = o.num;
    let saved = t.words[layout::SAVED_COUNT + i] as usize;
    if queued {
        saved + t.words[layout::QUEUED_COUNT + i] as usize
    } else {
        saved
    }
}

// Whether none of those entries is of transaction x.
fn lacks(t: &Tables, x: Txn, o: Object, queued: bool) -> bool
    ensures { result ≡ lacks_in t.now.words.now (txn_of x) queued o.num }
{
    lookups::wrote_none(t.words, o, counted(t, o, queued), x)
}

// The lowest object that the transaction wrote and that lacks an entry of it. It is no Option: where there is none the rules'
// `lowest` gives 32, and a refusal's value is that number.
fn first_lacking(t: &Tables, live: Live, queued: bool) -> Obj
    ensures { result.num ≡ lowest object_count (is_lacking t.now.words.now (txn_of live.who) live.place.num queued) }
{
    let written = t.words[layout::WRITTEN + live.place.num];
    for i in 0..layout::OBJECTS {
        if sets::has(written, i) && lacks(t, live.who, Object { num: i }, queued) {
            return Obj { num: i };
        }
    }
    Obj {
        num: layout::OBJECTS,
    }
}

// Two names of `first_lacking`, each with the rules' own fact. The lowest object that the transaction wrote and whose chain has no
// entry of it, or 32 where there is none.
pub fn first_missing(t: &Tables, live: Live) -> Obj
    requires { IsLive (held t.now) live }
    ensures { result.num ≡ lowest object_count (is_missing (held t.now) (calling is_commit (txn_of live.who) (obj 0) 0)) }
{
    first_lacking(t, live, true)
}

// The lowest object that it wrote and whose saved entries have none of it, or 32 where there is none.
pub fn first_unsaved(t: &Tables, live: Live) -> Obj
    requires { IsLive (held t.now) live }
    ensures { result.num ≡ lowest object_count (is_unsaved (held t.now) (calling is_commit (txn_of live.who) (obj 0) 0)) }
{
    first_lacking(t, live, false)
}

// Commit.
pub fn of_commit(s: &Seated) -> Result<(), Refusal>
    ensures { Refuses (held s.now.tables) (calling is_commit (txn_of s.now.who) (obj 0) 0) result }
{
    let t = &s.tables;
    let live = of_transaction(s)?;
    let p = live.place.num;
    if !sets::within(t.words[layout::ACCESSED + p], t.words[layout::PREPARED + p]) {
        return Err(Refusal::Unprepared);
    }
    if first_missing(t, live).num < layout::OBJECTS {
        return Err(Refusal::Lost);
    }
    if first_unsaved(t, live).num < layout::OBJECTS {
        return Err(Refusal::Unsaved);
    }
    if t.words[layout::DEPENDS + p] != 0 {
        return Err(Refusal::DependencyLive);
    }
    let full = layout::LOG_ROOM as u64 <= t.words[layout::LOG_COUNT];
    if full {
        return Err(Refusal::LogFull);
    }
    Ok(())
}
