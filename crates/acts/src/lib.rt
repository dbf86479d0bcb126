// What a call answers and leaves on sound words: it is decided, then refused for its reason or done.
#![tactic(auto, using(lookups::proofs::Fitting::bounds))]

ghost use Rattle.std.specs.Prelude.{◌≡◌, cond, suc, ◌<◌, ◌≤◌, T, length, IsSome};
ghost use Rattle.std.proofs.Math.Option.{none, some};
ghost use Rattle.rules.specs.Tests.{lowest, lower as lower_of, least};
ghost use Rattle.rules.specs.Sets.{has};
ghost use Rattle.rules.specs.Tables.{lsn, object_count, place_count, log_room, last_number, object, place, place_of, is_live as is_live_in};
ghost use Rattle.rules.specs.Falls.{fallen, how_many};
ghost use Rattle.rules.specs.Steps.{free_places, start as started, access as accessed, read as read_at, write as written, commit as committed, undo, status as status_of};
ghost use Rattle.rules.specs.Answers.{lost, refusal_value as value_of, refusal};
ghost use Rattle.rules.specs.Layout.{sound_words, pack, unpack};
ghost use Rattle.sound_laws.specs.Access.{MayAccess};
ghost use Rattle.lent.specs.Held.{held};
ghost use Rattle.calls.specs.Calls.{call_of};
ghost use Rattle.calls.specs.Meaning.{txn_of, lsn_of, object_of, refusal_of, IsLive};
ghost use Rattle.lookups.specs.Places.{seat_number};
ghost use Rattle.refusals.specs.Reasons.{Refuses};
ghost use Rattle.acts.specs.Fates.{fate_number};
ghost use Rattle.acts.specs.Acted.{Acted, Placed, RefusedFor, Did, is_open};

use calls::{Answer, Call, Kind, Live, Lsn, NOBODY, Obj, Object, Place, Refusal, Txn};
use lent::Tables;
use lookups::Seated;

// ---- what the words say

// What has become of a transaction, under the number that its status is.
#[derive(Clone, Copy)]
enum Fate {
    Live = 1,
    Committed = 2,
    Aborted = 3,
}

impl From<Fate> for u64 {
    ghost from_gives = { λ fate number. number ≡ fate_number fate };

    fn from(fate: Fate) -> u64 {
        fate as u64
    }
}

// What has become of a transaction that was given out. The log's count is the number of its last record.
fn status(s: &Seated) -> Fate
    ensures { fate_number result ≡ status_of (held s.now.tables) (txn_of s.now.who) }
{
    if s.seat.is_some() {
        return Fate::Live;
    }
    let number = lookups::log_number(&s.tables, s.who);
    let last = Lsn {
        num: s.tables.words[layout::LOG_COUNT],
    };
    let logged = number <= last;
    if logged {
        Fate::Committed
    } else {
        Fate::Aborted
    }
}

// The lower of two numbers, where a 0 stands for none, as it does in the rules' own.
fn lower(a: Txn, b: Txn) -> Txn
    ensures { result.num ≡ lower_of a.num b.num }
{
    if a == NOBODY {
        return b;
    }
    if b == NOBODY {
        return a;
    }
    a.min(b)
}

// The transaction at place p if p is one of the places; nobody where it is not.
fn number_among(t: &Tables, places: u64, p: Place) -> Txn
    ensures { result.num ≡ cond (has places p.num) (place (held t.now).live p.num).number.num 0 }
{
    if sets::has(places, p.num) {
        Txn {
            num: t.words[layout::NUMBER + p.num],
        }
    } else {
        NOBODY
    }
}

// The lowest number among the transactions at the places of a set; nobody's where the set is empty.
fn lowest_number(t: &Tables, places: u64) -> Txn
    ensures { result.num ≡ least place_count (λ p. cond (has places p) (place (held t.now).live p).number.num 0) }
{
    let mut low = NOBODY;
    for p in 0..32 {
        low = lower(low, number_among(t, places, Place { num: p }));
    }
    low
}

// The lowest object that the transaction at place p accessed and has not prepared, or 32 where there is none, as the rules'
// `lowest` has it. What is prepared is accessed, so the difference of the two words is the set of the rest.
fn first_unprepared(t: &Tables, p: Place) -> Obj
    ensures { result.num ≡ lowest object_count (is_open (place (held t.now).live p.num)) }
{
    let open = (t.words[layout::ACCESSED + p.num] - t.words[layout::PREPARED + p.num]) as u32;
    Obj {
        num: sets::lowest(open) as usize,
    }
}

// ---- whether the call is done

// Why the call is refused, if it is; seat is the place of the transaction that it names, if that is live. Here and in `give` the
// kind is decided on, as document 01 asks.
fn decide(t: &Tables, c: Call, seat: Option<Place>) -> Result<(), Refusal>
    requires { Placed (held t.now) (call_of c) seat }
    ensures { Refuses (held t.now) (call_of c) result }
{
    let o = c.what;
    let s = Seated {
        tables: *t,
        who: c.who,
        seat,
    };
    match c.kind {
        Kind::Start => refusals::of_start(t),
        Kind::Read => refusals::of_access(&s, o),
        Kind::Write => refusals::of_access(&s, o),
        Kind::Prepare => refusals::of_prepare(&s, o),
        Kind::Save => refusals::of_object(o),
        Kind::Commit => refusals::of_commit(&s),
        Kind::Abort => refusals::of_abort(&s),
        Kind::Settle => refusals::of_object(o),
        Kind::Crash => refusals::of_set(c.value),
        Kind::Restart => Ok(()),
        Kind::Status => refusals::of_status(t, s.who),
        Kind::Look => refusals::of_object(o),
    }
}

// ---- refused

// The live transaction that a call names.
fn live(c: Call, seat: Option<Place>) -> Live
    requires { IsSome seat }
    ensures who { result.who ≡ c.who }
    ensures place { result.place.num ≡ seat_number seat }
{
    let Some(place) = seat else { unreachable!() };
    Live { who: c.who, place }
}

// The transaction at place p falls with those that depend on it; gives how many fell.
fn fall(words: &mut [u64], p: Place) -> u64
    requires { T (sound_words words.old) }
    ensures fell { result ≡ how_many (fallen (unpack words.old).live p.num) }
    ensures left { words.new ≡ pack (undo (unpack words.old) (fallen (unpack words.old).live p.num)) }
{
    let f = lookups::fallen(&Tables { words }, p);
    ends::undo(words, f);
    sets::count(f) as u64
}

// The value given with a refusal for any reason but that the transaction lost an object.
fn refusal_value(t: &Tables, c: Call, why: Refusal, seat: Option<Place>) -> u64
    requires { RefusedFor (held t.now) (call_of c) why × Placed (held t.now) (call_of c) seat }
    ensures { (refusal_of why ≡ lost → ⊥) → result ≡ value_of (refusal_of why) (held t.now) (call_of c) }
{
    match why {
        Refusal::NoLongerLive => u64::from(status(&Seated {
            tables: *t,
            who: c.who,
            seat,
        })),
        Refusal::Wait | Refusal::Died => lookups::holder(t.words, Object { num: c.what.num }).num,
        Refusal::Unprepared => first_unprepared(t, live(c, seat).place).num as u64,
        Refusal::Unsaved => refusals::first_unsaved(t, live(c, seat)).num as u64,
        Refusal::DependencyLive => lowest_number(
            t,
            t.words[layout::DEPENDS + live(c, seat).place.num],
        ).num,
        _ => 0,
    }
}

// The answer to a call that is refused, and what the refusal leaves: whoever lost an object or died falls.
fn refuse(words: &mut [u64], c: Call, why: Refusal, seat: Option<Place>) -> Answer
    requires { T (sound_words words.old) × RefusedFor (unpack words.old) (call_of c) why × Placed (unpack words.old) (call_of c) seat }
    ensures { Acted words.old (call_of c) result words.new }
{
    match why {
        Refusal::Lost => {
            let fell = fall(words, live(c, seat).place);
            Answer::refused(why, fell)
        }
        Refusal::Died => {
            let holder = refusal_value(&Tables { words }, c, why, seat);
            fall(words, live(c, seat).place);
            Answer::refused(why, holder)
        }
        _ => {
            let value = refusal_value(&Tables { words }, c, why, seat);
            Answer::refused(why, value)
        }
    }
}

// ---- done

// Gives the number that start gives out.
fn start(words: &mut [u64]) -> Txn
    requires { T (sound_words words.old) × ((unpack words.old).next.num ≤ last_number) × (0 < free_places (unpack words.old)) }
    ensures given { txn_of result ≡ (unpack words.old).next }
    ensures left { words.new ≡ pack (started (unpack words.old)) }
{
    let next = Txn {
        num: words[layout::NEXT],
    };
    locks::start(words);
    next
}

// The lock of an object for a live transaction, if it has not accessed the object before.
fn access(words: &mut [u64], live: Live, o: Object)
    requires { T (sound_words words.old) × MayAccess (unpack words.old) (txn_of live.who) o.num × IsLive (unpack words.old) live }
    ensures { words.new ≡ pack (accessed (unpack words.old) (txn_of live.who) (object_of o)) }
{
    if !sets::has(words[layout::ACCESSED + live.place.num], o.num) {
        locks::lock(words, live, o);
    }
}

// Gives the working value.
fn read(words: &mut [u64], live: Live, o: Object) -> u64
    requires { T (sound_words words.old) × MayAccess (unpack words.old) (txn_of live.who) o.num × IsLive (unpack words.old) live }
    ensures given { result ≡ (object (read_at (unpack words.old) (txn_of live.who) (object_of o)) (object_of o)).working }
    ensures left { words.new ≡ pack (read_at (unpack words.old) (txn_of live.who) (object_of o)) }
{
    access(words, live, o);
    words[layout::WORKING + o.num]
}

// Sets the working value.
fn write(words: &mut [u64], live: Live, o: Object, v: u64)
    requires { T (sound_words words.old) × MayAccess (unpack words.old) (txn_of live.who) o.num × IsLive (unpack words.old) live }
    ensures { words.new ≡ pack (written (unpack words.old) (txn_of live.who) (object_of o) v) }
{
    access(words, live, o);
    locks::set_working_value(words, live, o, v);
}

// Gives the log number of the record that commit adds.
fn commit(words: &mut [u64], live: Live) -> Lsn
    requires { T (sound_words words.old) × IsLive (unpack words.old) live × (length (unpack words.old).log < log_room) }
    ensures given { lsn_of result ≡ lsn (suc (length (unpack words.old).log)) }
    ensures left { words.new ≡ pack (committed (unpack words.old) (txn_of live.who)) }
{
    let number = Lsn {
        num: words[layout::LOG_COUNT] + 1,
    };
    ends::commit(words, live);
    number
}

// What a call that nothing refuses gives and leaves; seat is the place of the transaction that it names, where that is live.
fn give(words: &mut [u64], c: Call, seat: Option<Place>) -> u64
    requires { T (sound_words words.old) × (refusal (unpack words.old) (call_of c) ≡ none) × Placed (unpack words.old) (call_of c) seat }
    ensures { Did words.old (call_of c) result words.new }
{
    let i = c.what.num;
    match c.kind {
        Kind::Start => start(words).num,
        Kind::Read => read(words, live(c, seat), Object { num: i }),
        Kind::Write => {
            write(words, live(c, seat), Object { num: i }, c.value);
            0
        }
        Kind::Prepare => {
            locks::prepare(words, live(c, seat), Object { num: i });
            0
        }
        Kind::Save => locks::save(words, Object { num: i }),
        Kind::Commit => commit(words, live(c, seat)).num,
        Kind::Abort => fall(words, live(c, seat).place),
        Kind::Settle => ends::settle(words, Object { num: i }),
        Kind::Crash => ends::crash(words, c.value as u32),
        Kind::Restart => ends::restart(words),
        Kind::Status => u64::from(status(&Seated {
            tables: Tables { words },
            who: c.who,
            seat,
        })),
        Kind::Look => words[layout::STABLE_VALUE + i],
    }
}

// The answer to a call that nothing refuses, and what it leaves.
fn done(words: &mut [u64], c: Call, seat: Option<Place>) -> Answer
    requires { T (sound_words words.old) × (refusal (unpack words.old) (call_of c) ≡ none) × Placed (unpack words.old) (call_of c) seat }
    ensures { Acted words.old (call_of c) result words.new }
{
    let value = give(words, c, seat);
    Answer::done(value)
}

// One call on sound words: the answer and every word are the rules'.
pub fn call(words: &mut [u64], c: Call) -> Answer
    requires { T (sound_words words.old) }
    ensures { Acted words.old (call_of c) result words.new }
{
    let t = Tables { words };
    let seat = lookups::live_place(&t, c.who);
    match decide(&t, c, seat) {
        Ok(()) => done(words, c, seat),
        Err(why) => refuse(words, c, why, seat),
    }
}
