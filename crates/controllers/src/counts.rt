// Counting and choosing among the records of moves.
ghost use Rattle.std.specs.Prelude.{◌≡◌, ◌+◌, ◌^◌, ◌<◌, ◌≤◌};
ghost use Rattle.controllers.specs.Choice as Choice;
ghost use Rattle.std.proofs.Common.{rules};

use crate::controller::{MoveRecord, Picked};
use ballots::{Ballot, entry};
use letters::certificates::Basis;
use letters::maps::stands;
use letters::sorts::{Seal, SeatSet};
use terms::numbers::View;

impl Ballot for MoveRecord {
    ghost agree = { Choice.same_view };

    ghost agrees_with_itself = { Prim.search rules };

    ghost agrees_both_ways = { Prim.search rules };

    ghost agrees_across = { Prim.search rules };

    fn agrees(&self, other: &MoveRecord) -> bool {
        self.view == other.view
    }
}

// A record names a view.
pub(crate) fn names(slot: Option<MoveRecord>, view: View) -> bool
    ensures { result ≡ Choice.names slot view }
{
    slot.is_some_and(|record| record.view == view)
}

// The basis that a mover's record of a view has.
fn offer(mover: bool, slot: Option<MoveRecord>, view: View) -> Option<Basis>
    ensures { result ≡ Choice.offer mover slot view }
{
    if !mover || !names(slot, view) {
        return None;
    }
    slot.and_then(|record| record.basis)
}

// The one with the higher view; at a tie the first.
fn better(best: Option<Basis>, next: Option<Basis>) -> Option<Basis>
    ensures { result ≡ Choice.better best next }
{
    let Some(next) = next else {
        return best;
    };
    let Some(held) = best else {
        return Some(next);
    };
    if held.view < next.view {
        Some(next)
    } else {
        Some(held)
    }
}

// Here and below the seats, or the places, go by number, as the definitions do: a table is a slice of any length,
// and past its last row there is no entry.

// The basis with the highest view among the movers' records of a view, the lowest seat at a tie.
pub(crate) fn choose(records: &[Option<MoveRecord>], movers: SeatSet, view: View) -> Option<Basis>
    ensures { result ≡ Choice.best records.now movers.0 view 16 }
{
    (0..16u8).fold(None, |best, seat| {
        better(
            best,
            offer(stands(movers.0, seat), entry(records, seat), view),
        )
    })
}

// Each mover has a record of the view.
pub(crate) fn all_recorded(records: &[Option<MoveRecord>], movers: SeatSet, view: View) -> bool
    ensures { result ≡ Choice.all_recorded records.now movers.0 view 16 }
{
    (0..16u8).all(|seat| !stands(movers.0, seat) || names(entry(records, seat), view))
}

// Each registered place is enrolled in a certificate.
pub(crate) fn covers(registered: &[Option<Seal>], enrolled: &[Option<Seal>]) -> bool
    ensures { result ≡ Choice.covers registered.now enrolled.now 8 }
{
    (0..8u8).all(|place| entry(registered, place).is_none() || entry(enrolled, place).is_some())
}

fn bit_of(seat: u8) -> u16
    requires { seat < 16 }
    ensures { result ≡ 2 ^ seat }
{
    1 << seat
}

fn add_seat(picked: Picked, seat: u8, quorum: u8, named: bool) -> Picked
    requires { (seat < 16) × ((picked.map < 2 ^ seat) × (picked.count ≤ seat)) }
    ensures value { result ≡ Choice.add_seat picked seat quorum named }
    ensures map_bound { result.map < 2 ^ (seat + 1) }
    ensures count_bound { result.count ≤ seat + 1 }
{
    if !named {
        return picked;
    }
    if picked.count >= quorum {
        return picked;
    }
    Picked {
        map: picked.map + bit_of(seat),
        count: picked.count + 1,
    }
}

// The lowest seats with a record of the view, as many as a quorum.
#[tactic(auto, using(crate::proofs::Steps::picked_none, crate::proofs::Steps::picked_more))]
pub(crate) fn pick(records: &[Option<MoveRecord>], view: View, quorum: u8) -> SeatSet
    ensures { result.0 ≡ (Choice.picked records.now view quorum 16).map }
{
    // A loop: each step asks that the map is below this seat's bit, which a fold doesn't tell its closure.
    let mut picked = Picked { map: 0, count: 0 };
    for seat in 0..16u8 {
        picked = add_seat(picked, seat, quorum, names(entry(records, seat), view));
    }
    SeatSet(picked.map)
}
