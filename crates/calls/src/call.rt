// A call as it is asked.
ghost use Rattle.std.specs.Prelude.{T};
ghost use Rattle.rules.specs.Frames.{unused_zero};
ghost use Rattle.calls.specs.Meaning.{call_with};

use crate::{Kind, Obj, Txn};

// A call: a field that its kind does not use is zero.
#[derive(Clone, Copy)]
pub struct Call {
    pub kind: Kind,
    pub who: Txn,
    pub what: Obj,
    pub value: u64,
    ghost unused: { T (unused_zero (call_with kind who what value)) },
}
