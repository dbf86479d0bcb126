// Sets of objects and of places as the words hold them: one number, bit i for the member i. They stay whole words with a clause
// that no bit from 32 on is set: as 32 bits they made a round of dependents half as slow again (`lookups::places_where`).
#![tactic(auto)]

ghost use Rattle.std.specs.Prelude.{◌≡◌, ◌<◌, ◌^◌};
ghost use Rattle.rules.specs.Tests.{count as how_many, lowest as lowest_of};
ghost use Rattle.rules.specs.Sets.{width, has as is_in, with_member, without_member, within as lies_in, meets as meet};

// Whether i is a member.
pub fn has(s: u64, i: usize) -> bool
    requires { i < 64 }
    ensures { result ≡ is_in s i }
{
    (s >> i) % 2 == 1
}

// The set and the member i.
pub fn with(s: u64, i: usize) -> u64
    requires { (s < 2 ^ width) × (i < width) }
    ensures { result ≡ with_member s i }
{
    if has(s, i) { s } else { s + (1u64 << i) }
}

// The set less the member i.
pub fn without(s: u64, i: usize) -> u64
    requires { (s < 2 ^ width) × (i < width) }
    ensures { result ≡ without_member s i }
{
    if has(s, i) { s - (1u64 << i) } else { s }
}

// Whether every member of the first is one of the second.
pub fn within(s: u64, t: u64) -> bool
    requires { (s < 2 ^ width) × (t < 2 ^ width) }
    ensures { result ≡ lies_in s t }
{
    s & t == s
}

// Whether some member of the first is one of the second.
pub fn meets(s: u64, t: u64) -> bool
    requires { (s < 2 ^ width) × (t < 2 ^ width) }
    ensures { result ≡ meet s t }
{
    s & t != 0
}

// The lowest member, or 32 where there is none, as the rules' `lowest` and the trailing zeros have it.
pub fn lowest(s: u32) -> u32
    ensures { result ≡ lowest_of width (is_in s) }
{
    u32::trailing_zeros(s)
}

// How many members there are.
pub fn count(s: u32) -> u32
    ensures { result ≡ how_many width (is_in s) }
{
    u32::count_ones(s)
}
