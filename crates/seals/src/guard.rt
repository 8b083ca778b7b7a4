// The scratch guard: a statement stands in the scratch buffer only while the guard lives.
ghost use Rattle.std.specs.Prelude.{◌≡◌, true, replicate};
ghost use Rattle.letters.specs.Statements.{statement_bytes};
ghost use Rattle.seals.specs.Opening.{accepted};

use letters::sorts::Seal;
use letters::statements::{Borne, Statement};
use schemes::scheme::Scheme;
use terms::parties::Party;
use writing::statements::stamp;

// The start of a scratch buffer: room for one statement.
pub(crate) type Room = [u8; 24];

// However its owner returns, the room is left zero.
pub(crate) struct Guard<'a> {
    pub(crate) room: &'a mut Room,
}

impl Drop for Guard<'_> {
    fn drop(self)
        ensures { self.exit.0.now ≡ replicate 24 0 }
    {
        let Guard { room } = self;
        room.fill(0);
    }
}

// Whether the party sealed the statement so.
#[tactic(auto, using(crate::proofs::Stamps::stamped))]
pub(crate) fn accepts<S: Scheme>(scheme: &S, room: &mut Room, borne: Borne) -> bool
    ensures { result ≡ accepted (S.Scheme.holds scheme.now) borne }
{
    let _ = stamp(borne.statement, room);
    scheme.check(borne.party, room, borne.seal)
}

// A seal of the party on the statement.
#[tactic(auto, using(crate::proofs::Stamps::stamped))]
pub(crate) fn make_seal<S: Scheme>(
    scheme: &S,
    room: &mut Room,
    party: Party,
    statement: Statement,
) -> Seal
    ensures { S.Scheme.holds scheme.now party (statement_bytes statement) result ≡ true }
{
    let _ = stamp(statement, room);
    scheme.seal(party, room)
}
