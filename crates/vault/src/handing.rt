// Handing in bytes to a controller or a lock.
ghost use Rattle.std.specs.Prelude.{◌≡◌, Some};
ghost use Rattle.terms.specs.declared.parties.Party.TheVariants as Party;
ghost use Rattle.agreement.specs.Calls as Calls;
ghost use Rattle.vault.specs.Vaults as Vaults;

use crate::calls::no_such_unit;
use crate::vault::Vault;
use boards::board::Board;
use controllers::controller::Controller;
use locks::lock::Lock;
use posting::replies::CallResult;
use posting::room::require_room;
use schemes::scheme::Scheme;
use seals::opening::open;
use terms::numbers::{Place, Seat};
use terms::parties::Party;

impl Vault {
    // A lock's tests are alike: a shared function would have to tell what opening leaves of the scratch buffer.
    fn hand_to_controller<S: Scheme, B: Board>(
        &self,
        controllers: &mut [Controller],
        locks: &[Lock],
        board: &B,
        scheme: &S,
        seat: Seat,
        bytes: &[u8],
        scratch: &mut [u8],
        out: &mut [u8],
        unit: u32,
    ) -> CallResult
        ensures { Vaults.Turned (Vaults.constant self.now (S.Scheme.holds scheme.now)) (Vaults.state controllers.old locks.now self.now (B.Board.meaning board.now)) (Vaults.call (Calls.hands_in unit bytes.now) out.old scratch.old) (Vaults.handed (Vaults.constant self.now (S.Scheme.holds scheme.now)) (Vaults.state controllers.old locks.now self.now (B.Board.meaning board.now)) (Vaults.call (Calls.hands_in unit bytes.now) out.old scratch.old) bytes.now (Some (Party.Controller seat))) (Calls.went result (Vaults.state controllers.new locks.now self.now (B.Board.meaning board.now)) out.new scratch.new) }
    {
        let at = seat.number() as usize;
        if at >= controllers.len() {
            return Err(no_such_unit());
        }
        require_room(out.len(), scratch.len())?;
        let opened = open(self.sizes, scheme, bytes, scratch)?;
        controllers[at].receive(self.sizes, self.change, scheme, opened, scratch, out)
    }

    fn hand_to_lock<S: Scheme, B: Board>(
        &self,
        controllers: &[Controller],
        locks: &mut [Lock],
        board: &mut B,
        scheme: &S,
        place: Place,
        bytes: &[u8],
        scratch: &mut [u8],
        out: &mut [u8],
        unit: u32,
    ) -> CallResult
        ensures { Vaults.Turned (Vaults.constant self.now (S.Scheme.holds scheme.now)) (Vaults.state controllers.now locks.old self.now (B.Board.meaning board.old)) (Vaults.call (Calls.hands_in unit bytes.now) out.old scratch.old) (Vaults.handed (Vaults.constant self.now (S.Scheme.holds scheme.now)) (Vaults.state controllers.now locks.old self.now (B.Board.meaning board.old)) (Vaults.call (Calls.hands_in unit bytes.now) out.old scratch.old) bytes.now (Some (Party.Lock place))) (Calls.went result (Vaults.state controllers.now locks.new self.now (B.Board.meaning board.new)) out.new scratch.new) }
    {
        let at = place.number() as usize;
        if at >= locks.len() {
            return Err(no_such_unit());
        }
        require_room(out.len(), scratch.len())?;
        let opened = open(self.sizes, scheme, bytes, scratch)?;
        locks[at].receive(self.sizes, self.change, scheme, board, opened, scratch, out)
    }

    pub(crate) fn hand_in_one<S: Scheme, B: Board>(
        &self,
        controllers: &mut [Controller],
        locks: &mut [Lock],
        board: &mut B,
        scheme: &S,
        unit: u32,
        bytes: &[u8],
        scratch: &mut [u8],
        out: &mut [u8],
    ) -> CallResult
        ensures { Calls.Step (Vaults.constant self.now (S.Scheme.holds scheme.now)) (Vaults.state controllers.old locks.old self.now (B.Board.meaning board.old)) (Vaults.call (Calls.hands_in unit bytes.now) out.old scratch.old) (Calls.went result (Vaults.state controllers.new locks.new self.now (B.Board.meaning board.new)) out.new scratch.new) }
    {
        match self.sizes.party(unit) {
            Some(Party::Controller(seat)) => self.hand_to_controller(
                controllers,
                locks,
                board,
                scheme,
                seat,
                bytes,
                scratch,
                out,
                unit,
            ),
            Some(Party::Lock(place)) => self.hand_to_lock(
                controllers,
                locks,
                board,
                scheme,
                place,
                bytes,
                scratch,
                out,
                unit,
            ),
            // Two arms: as one they leave it open in the proof whether there is such a party.
            Some(Party::Office) => Err(no_such_unit()),
            None => Err(no_such_unit()),
        }
    }
}
