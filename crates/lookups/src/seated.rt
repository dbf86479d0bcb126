// Where the transaction that a call names has its place.
ghost use Rattle.std.specs.Prelude.{◌≡◌};
ghost use Rattle.lent.specs.Held.{held};
ghost use Rattle.calls.specs.Meaning.{txn_of};
ghost use Rattle.lookups.specs.Places.{seat_number, live_place};

use calls::{Place, Txn};
use lent::Tables;

// A transaction with the place that it has in the tables, if it is live there.
#[derive(Clone, Copy)]
pub struct Seated<'a> {
    pub tables: Tables<'a>,
    pub who: Txn,
    pub seat: Option<Place>,
    ghost seated: { seat_number seat ≡ live_place (held tables).live (txn_of who) },
}
