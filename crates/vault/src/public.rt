// The calls on a vault. Each is lent both tables, the board, the seal scheme and the two buffers.
// They are not one struct: which of them a call may alter differs from call to call, and its signature shows it.
// Nor has what a call finds and leaves a name of its own: that name would take the same dozen values.
ghost use Rattle.std.specs.Prelude.{◌≡◌};
ghost use Rattle.agreement.specs.Calls as Calls;
ghost use Rattle.agreement.specs.Law as Law;
ghost use Rattle.vault.specs.Laws as Laws;
ghost use Rattle.vault.specs.Vaults as Vaults;

use crate::vault::Vault;
use boards::board::Board;
use controllers::controller::Controller;
use locks::lock::Lock;
use posting::replies::CallResult;
use schemes::scheme::Scheme;

impl Vault {
    // The office orders a number for all doors; without a number, that the change is cancelled.
    pub fn order<S: Scheme, B: Board>(
        &mut self,
        controllers: &[Controller],
        locks: &[Lock],
        board: &B,
        scheme: &S,
        number: Option<u32>,
        scratch: &mut [u8],
        out: &mut [u8],
    ) -> CallResult
        ensures sizes_and_change_stay { Vaults.same_vault self.new self.old }
        ensures by_the_rules { Calls.Step (Vaults.constant self.old (S.Scheme.holds scheme.now)) (Vaults.state controllers.now locks.now self.old (B.Board.meaning board.now)) (Vaults.call (Calls.orders number) out.old scratch.old) (Calls.went result (Vaults.state controllers.now locks.now self.new (B.Board.meaning board.now)) out.new scratch.new) }
        ensures honest_locks_share_one_result { Laws.ShareOneResult (Vaults.constant self.old (S.Scheme.holds scheme.now)) (Vaults.state controllers.now locks.now self.old (B.Board.meaning board.now)) (Vaults.call (Calls.orders number) out.old scratch.old) (Calls.went result (Vaults.state controllers.now locks.now self.new (B.Board.meaning board.now)) out.new scratch.new) }
        ensures enrolled_locks_voted_ready { Laws.VotedReadyIfEnrolled (Vaults.constant self.old (S.Scheme.holds scheme.now)) (Vaults.state controllers.now locks.now self.old (B.Board.meaning board.now)) (Vaults.call (Calls.orders number) out.old scratch.old) (Calls.went result (Vaults.state controllers.now locks.now self.new (B.Board.meaning board.now)) out.new scratch.new) }
        ensures honest_office_ordered { Laws.OrderedByOffice (Vaults.constant self.old (S.Scheme.holds scheme.now)) (Vaults.state controllers.now locks.now self.old (B.Board.meaning board.now)) (Vaults.call (Calls.orders number) out.old scratch.old) (Calls.went result (Vaults.state controllers.now locks.now self.new (B.Board.meaning board.now)) out.new scratch.new) }
        ensures honest_controllers_hold_one_result { Law.HoldsOneResult (Vaults.constant self.old (S.Scheme.holds scheme.now)) (Vaults.state controllers.now locks.now self.old (B.Board.meaning board.now)) (Vaults.call (Calls.orders number) out.old scratch.old) (Calls.went result (Vaults.state controllers.now locks.now self.new (B.Board.meaning board.now)) out.new scratch.new) }
    {
        self.order_one(controllers, locks, board, scheme, number, scratch, out)
    }

    // The lock at a place enrols.
    pub fn enrol<S: Scheme, B: Board>(
        &self,
        controllers: &[Controller],
        locks: &mut [Lock],
        board: &B,
        scheme: &S,
        place: u32,
        scratch: &mut [u8],
        out: &mut [u8],
    ) -> CallResult
        ensures by_the_rules { Calls.Step (Vaults.constant self.now (S.Scheme.holds scheme.now)) (Vaults.state controllers.now locks.old self.now (B.Board.meaning board.now)) (Vaults.call (Calls.enrols place) out.old scratch.old) (Calls.went result (Vaults.state controllers.now locks.new self.now (B.Board.meaning board.now)) out.new scratch.new) }
        ensures honest_locks_share_one_result { Laws.ShareOneResult (Vaults.constant self.now (S.Scheme.holds scheme.now)) (Vaults.state controllers.now locks.old self.now (B.Board.meaning board.now)) (Vaults.call (Calls.enrols place) out.old scratch.old) (Calls.went result (Vaults.state controllers.now locks.new self.now (B.Board.meaning board.now)) out.new scratch.new) }
        ensures enrolled_locks_voted_ready { Laws.VotedReadyIfEnrolled (Vaults.constant self.now (S.Scheme.holds scheme.now)) (Vaults.state controllers.now locks.old self.now (B.Board.meaning board.now)) (Vaults.call (Calls.enrols place) out.old scratch.old) (Calls.went result (Vaults.state controllers.now locks.new self.now (B.Board.meaning board.now)) out.new scratch.new) }
        ensures honest_office_ordered { Laws.OrderedByOffice (Vaults.constant self.now (S.Scheme.holds scheme.now)) (Vaults.state controllers.now locks.old self.now (B.Board.meaning board.now)) (Vaults.call (Calls.enrols place) out.old scratch.old) (Calls.went result (Vaults.state controllers.now locks.new self.now (B.Board.meaning board.now)) out.new scratch.new) }
        ensures honest_controllers_hold_one_result { Law.HoldsOneResult (Vaults.constant self.now (S.Scheme.holds scheme.now)) (Vaults.state controllers.now locks.old self.now (B.Board.meaning board.now)) (Vaults.call (Calls.enrols place) out.old scratch.old) (Calls.went result (Vaults.state controllers.now locks.new self.now (B.Board.meaning board.now)) out.new scratch.new) }
    {
        self.enrol_one(controllers, locks, board, scheme, place, scratch, out)
    }

    // The lock at a place declines to take part.
    pub fn decline<S: Scheme, B: Board>(
        &self,
        controllers: &[Controller],
        locks: &mut [Lock],
        board: &B,
        scheme: &S,
        place: u32,
        scratch: &mut [u8],
        out: &mut [u8],
    ) -> CallResult
        ensures by_the_rules { Calls.Step (Vaults.constant self.now (S.Scheme.holds scheme.now)) (Vaults.state controllers.now locks.old self.now (B.Board.meaning board.now)) (Vaults.call (Calls.declines place) out.old scratch.old) (Calls.went result (Vaults.state controllers.now locks.new self.now (B.Board.meaning board.now)) out.new scratch.new) }
        ensures honest_locks_share_one_result { Laws.ShareOneResult (Vaults.constant self.now (S.Scheme.holds scheme.now)) (Vaults.state controllers.now locks.old self.now (B.Board.meaning board.now)) (Vaults.call (Calls.declines place) out.old scratch.old) (Calls.went result (Vaults.state controllers.now locks.new self.now (B.Board.meaning board.now)) out.new scratch.new) }
        ensures enrolled_locks_voted_ready { Laws.VotedReadyIfEnrolled (Vaults.constant self.now (S.Scheme.holds scheme.now)) (Vaults.state controllers.now locks.old self.now (B.Board.meaning board.now)) (Vaults.call (Calls.declines place) out.old scratch.old) (Calls.went result (Vaults.state controllers.now locks.new self.now (B.Board.meaning board.now)) out.new scratch.new) }
        ensures honest_office_ordered { Laws.OrderedByOffice (Vaults.constant self.now (S.Scheme.holds scheme.now)) (Vaults.state controllers.now locks.old self.now (B.Board.meaning board.now)) (Vaults.call (Calls.declines place) out.old scratch.old) (Calls.went result (Vaults.state controllers.now locks.new self.now (B.Board.meaning board.now)) out.new scratch.new) }
        ensures honest_controllers_hold_one_result { Law.HoldsOneResult (Vaults.constant self.now (S.Scheme.holds scheme.now)) (Vaults.state controllers.now locks.old self.now (B.Board.meaning board.now)) (Vaults.call (Calls.declines place) out.old scratch.old) (Calls.went result (Vaults.state controllers.now locks.new self.now (B.Board.meaning board.now)) out.new scratch.new) }
    {
        self.decline_one(controllers, locks, board, scheme, place, scratch, out)
    }

    // The view of the controller at a seat has lasted too long.
    pub fn ring<S: Scheme, B: Board>(
        &self,
        controllers: &mut [Controller],
        locks: &[Lock],
        board: &B,
        scheme: &S,
        seat: u32,
        scratch: &mut [u8],
        out: &mut [u8],
    ) -> CallResult
        ensures by_the_rules { Calls.Step (Vaults.constant self.now (S.Scheme.holds scheme.now)) (Vaults.state controllers.old locks.now self.now (B.Board.meaning board.now)) (Vaults.call (Calls.rings seat) out.old scratch.old) (Calls.went result (Vaults.state controllers.new locks.now self.now (B.Board.meaning board.now)) out.new scratch.new) }
        ensures honest_locks_share_one_result { Laws.ShareOneResult (Vaults.constant self.now (S.Scheme.holds scheme.now)) (Vaults.state controllers.old locks.now self.now (B.Board.meaning board.now)) (Vaults.call (Calls.rings seat) out.old scratch.old) (Calls.went result (Vaults.state controllers.new locks.now self.now (B.Board.meaning board.now)) out.new scratch.new) }
        ensures enrolled_locks_voted_ready { Laws.VotedReadyIfEnrolled (Vaults.constant self.now (S.Scheme.holds scheme.now)) (Vaults.state controllers.old locks.now self.now (B.Board.meaning board.now)) (Vaults.call (Calls.rings seat) out.old scratch.old) (Calls.went result (Vaults.state controllers.new locks.now self.now (B.Board.meaning board.now)) out.new scratch.new) }
        ensures honest_office_ordered { Laws.OrderedByOffice (Vaults.constant self.now (S.Scheme.holds scheme.now)) (Vaults.state controllers.old locks.now self.now (B.Board.meaning board.now)) (Vaults.call (Calls.rings seat) out.old scratch.old) (Calls.went result (Vaults.state controllers.new locks.now self.now (B.Board.meaning board.now)) out.new scratch.new) }
        ensures honest_controllers_hold_one_result { Law.HoldsOneResult (Vaults.constant self.now (S.Scheme.holds scheme.now)) (Vaults.state controllers.old locks.now self.now (B.Board.meaning board.now)) (Vaults.call (Calls.rings seat) out.old scratch.old) (Calls.went result (Vaults.state controllers.new locks.now self.now (B.Board.meaning board.now)) out.new scratch.new) }
    {
        self.ring_one(controllers, locks, board, scheme, seat, scratch, out)
    }

    // The controller at a seat proposes.
    pub fn propose<S: Scheme, B: Board>(
        &self,
        controllers: &mut [Controller],
        locks: &[Lock],
        board: &B,
        scheme: &S,
        seat: u32,
        scratch: &mut [u8],
        out: &mut [u8],
    ) -> CallResult
        ensures by_the_rules { Calls.Step (Vaults.constant self.now (S.Scheme.holds scheme.now)) (Vaults.state controllers.old locks.now self.now (B.Board.meaning board.now)) (Vaults.call (Calls.proposes seat) out.old scratch.old) (Calls.went result (Vaults.state controllers.new locks.now self.now (B.Board.meaning board.now)) out.new scratch.new) }
        ensures honest_locks_share_one_result { Laws.ShareOneResult (Vaults.constant self.now (S.Scheme.holds scheme.now)) (Vaults.state controllers.old locks.now self.now (B.Board.meaning board.now)) (Vaults.call (Calls.proposes seat) out.old scratch.old) (Calls.went result (Vaults.state controllers.new locks.now self.now (B.Board.meaning board.now)) out.new scratch.new) }
        ensures enrolled_locks_voted_ready { Laws.VotedReadyIfEnrolled (Vaults.constant self.now (S.Scheme.holds scheme.now)) (Vaults.state controllers.old locks.now self.now (B.Board.meaning board.now)) (Vaults.call (Calls.proposes seat) out.old scratch.old) (Calls.went result (Vaults.state controllers.new locks.now self.now (B.Board.meaning board.now)) out.new scratch.new) }
        ensures honest_office_ordered { Laws.OrderedByOffice (Vaults.constant self.now (S.Scheme.holds scheme.now)) (Vaults.state controllers.old locks.now self.now (B.Board.meaning board.now)) (Vaults.call (Calls.proposes seat) out.old scratch.old) (Calls.went result (Vaults.state controllers.new locks.now self.now (B.Board.meaning board.now)) out.new scratch.new) }
        ensures honest_controllers_hold_one_result { Law.HoldsOneResult (Vaults.constant self.now (S.Scheme.holds scheme.now)) (Vaults.state controllers.old locks.now self.now (B.Board.meaning board.now)) (Vaults.call (Calls.proposes seat) out.old scratch.old) (Calls.went result (Vaults.state controllers.new locks.now self.now (B.Board.meaning board.now)) out.new scratch.new) }
    {
        self.propose_one(controllers, locks, board, scheme, seat, scratch, out)
    }

    // Bytes are handed in to the party with a number: a seat, or 32 and a place.
    pub fn hand_in<S: Scheme, B: Board>(
        &self,
        controllers: &mut [Controller],
        locks: &mut [Lock],
        board: &mut B,
        scheme: &S,
        unit: u32,
        bytes: &[u8],
        scratch: &mut [u8],
        out: &mut [u8],
    ) -> CallResult
        ensures by_the_rules { Calls.Step (Vaults.constant self.now (S.Scheme.holds scheme.now)) (Vaults.state controllers.old locks.old self.now (B.Board.meaning board.old)) (Vaults.call (Calls.hands_in unit bytes.now) out.old scratch.old) (Calls.went result (Vaults.state controllers.new locks.new self.now (B.Board.meaning board.new)) out.new scratch.new) }
        ensures honest_locks_share_one_result { Laws.ShareOneResult (Vaults.constant self.now (S.Scheme.holds scheme.now)) (Vaults.state controllers.old locks.old self.now (B.Board.meaning board.old)) (Vaults.call (Calls.hands_in unit bytes.now) out.old scratch.old) (Calls.went result (Vaults.state controllers.new locks.new self.now (B.Board.meaning board.new)) out.new scratch.new) }
        ensures enrolled_locks_voted_ready { Laws.VotedReadyIfEnrolled (Vaults.constant self.now (S.Scheme.holds scheme.now)) (Vaults.state controllers.old locks.old self.now (B.Board.meaning board.old)) (Vaults.call (Calls.hands_in unit bytes.now) out.old scratch.old) (Calls.went result (Vaults.state controllers.new locks.new self.now (B.Board.meaning board.new)) out.new scratch.new) }
        ensures honest_office_ordered { Laws.OrderedByOffice (Vaults.constant self.now (S.Scheme.holds scheme.now)) (Vaults.state controllers.old locks.old self.now (B.Board.meaning board.old)) (Vaults.call (Calls.hands_in unit bytes.now) out.old scratch.old) (Calls.went result (Vaults.state controllers.new locks.new self.now (B.Board.meaning board.new)) out.new scratch.new) }
        ensures honest_controllers_hold_one_result { Law.HoldsOneResult (Vaults.constant self.now (S.Scheme.holds scheme.now)) (Vaults.state controllers.old locks.old self.now (B.Board.meaning board.old)) (Vaults.call (Calls.hands_in unit bytes.now) out.old scratch.old) (Calls.went result (Vaults.state controllers.new locks.new self.now (B.Board.meaning board.new)) out.new scratch.new) }
    {
        self.hand_in_one(controllers, locks, board, scheme, unit, bytes, scratch, out)
    }
}
