// What a number names that has been looked at: an object, a place, a live transaction with its place. Object and Place are two
// types with one shape, so that no place serves as an object.
ghost use Rattle.std.specs.Prelude.{◌<◌};
ghost use Rattle.rules.specs.Tables.{object_count, place_count};

use crate::Txn;

// An object that there is.
#[derive(Clone, Copy, PartialEq, Eq)]
pub struct Object {
    pub num: usize,
    ghost exists: { num < object_count },
}

// A place that a live transaction can have.
#[derive(Clone, Copy, PartialEq, Eq)]
pub struct Place {
    pub num: usize,
    ghost exists: { num < place_count },
}

// A live transaction and the place that it has. In which tables it is live is said by `IsLive` in a clause, a fact of both.
#[derive(Clone, Copy)]
pub struct Live {
    pub who: Txn,
    pub place: Place,
}
