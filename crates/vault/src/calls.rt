// The calls on one unit.
ghost use Rattle.std.specs.Prelude.{◌≡◌, ℕ, ◌<◌, length, IfOk};
ghost use Rattle.terms.specs.Sizes.{seat_count};
ghost use Rattle.agreement.specs.Calls as Calls;
ghost use Rattle.vault.specs.Vaults as Vaults;

use crate::vault::Vault;
use boards::board::Board;
use controllers::controller::Controller;
use locks::lock::Lock;
use posting::replies::CallResult;
use schemes::scheme::Scheme;
use terms::refusals::{CallCause, Cause, Refusal};

pub(crate) fn no_such_unit() -> Refusal
    ensures { result ≡ Calls.no_such_unit }
{
    Refusal {
        cause: Cause::Call(CallCause::NoSuchUnit),
        place: 0,
    }
}

// The index of a unit in its table.
pub(crate) fn reach(n: u32, count: u8, reached: usize) -> Result<usize, Refusal>
    ensures value { result ≡ Vaults.reach n count reached }
    ensures within { IfOk result (λ k. k < reached) }
{
    if n >= count as u32 || n as usize >= reached {
        return Err(no_such_unit());
    }
    Ok(n as usize)
}

impl Vault {
    // The index of a controller in its table.
    pub(crate) fn seat_at(&self, n: u32, reached: usize) -> Result<usize, Refusal>
        ensures value { result ≡ Vaults.reach n (seat_count self.now.sizes) reached }
        ensures within { IfOk result (λ k. k < reached) }
    {
        reach(n, self.sizes.seats(), reached)
    }

    // The index of a lock in its table.
    pub(crate) fn place_at(&self, n: u32, reached: usize) -> Result<usize, Refusal>
        ensures value { result ≡ Vaults.reach n self.now.sizes.locks reached }
        ensures within { IfOk result (λ k. k < reached) }
    {
        reach(n, self.sizes.locks(), reached)
    }

    // Four calls on one unit, of two lines each: a function of the call would be lent all that a call is lent, and each
    // is told by a request of its own.
    pub(crate) fn ring_one<S: Scheme, B: Board>(
        &self,
        controllers: &mut [Controller],
        locks: &[Lock],
        board: &B,
        scheme: &S,
        seat: u32,
        scratch: &mut [u8],
        out: &mut [u8],
    ) -> CallResult
        ensures { Calls.Step (Vaults.constant self.now (S.Scheme.holds scheme.now)) (Vaults.state controllers.old locks.now self.now (B.Board.meaning board.now)) (Vaults.call (Calls.rings seat) out.old scratch.old) (Calls.went result (Vaults.state controllers.new locks.now self.now (B.Board.meaning board.now)) out.new scratch.new) }
    {
        let at = self.seat_at(seat, controllers.len())?;
        controllers[at].ring(self.change, scheme, scratch, out)
    }

    pub(crate) fn propose_one<S: Scheme, B: Board>(
        &self,
        controllers: &mut [Controller],
        locks: &[Lock],
        board: &B,
        scheme: &S,
        seat: u32,
        scratch: &mut [u8],
        out: &mut [u8],
    ) -> CallResult
        ensures { Calls.Step (Vaults.constant self.now (S.Scheme.holds scheme.now)) (Vaults.state controllers.old locks.now self.now (B.Board.meaning board.now)) (Vaults.call (Calls.proposes seat) out.old scratch.old) (Calls.went result (Vaults.state controllers.new locks.now self.now (B.Board.meaning board.now)) out.new scratch.new) }
    {
        let at = self.seat_at(seat, controllers.len())?;
        controllers[at].propose(self.sizes, self.change, scheme, scratch, out)
    }

    pub(crate) fn enrol_one<S: Scheme, B: Board>(
        &self,
        controllers: &[Controller],
        locks: &mut [Lock],
        board: &B,
        scheme: &S,
        place: u32,
        scratch: &mut [u8],
        out: &mut [u8],
    ) -> CallResult
        ensures { Calls.Step (Vaults.constant self.now (S.Scheme.holds scheme.now)) (Vaults.state controllers.now locks.old self.now (B.Board.meaning board.now)) (Vaults.call (Calls.enrols place) out.old scratch.old) (Calls.went result (Vaults.state controllers.now locks.new self.now (B.Board.meaning board.now)) out.new scratch.new) }
    {
        let at = self.place_at(place, locks.len())?;
        locks[at].enrol(self.change, scheme, scratch, out)
    }

    pub(crate) fn decline_one<S: Scheme, B: Board>(
        &self,
        controllers: &[Controller],
        locks: &mut [Lock],
        board: &B,
        scheme: &S,
        place: u32,
        scratch: &mut [u8],
        out: &mut [u8],
    ) -> CallResult
        ensures { Calls.Step (Vaults.constant self.now (S.Scheme.holds scheme.now)) (Vaults.state controllers.now locks.old self.now (B.Board.meaning board.now)) (Vaults.call (Calls.declines place) out.old scratch.old) (Calls.went result (Vaults.state controllers.now locks.new self.now (B.Board.meaning board.now)) out.new scratch.new) }
    {
        let at = self.place_at(place, locks.len())?;
        locks[at].decline(self.change, scheme, scratch, out)
    }

    pub(crate) fn order_one<S: Scheme, B: Board>(
        &mut self,
        controllers: &[Controller],
        locks: &[Lock],
        board: &B,
        scheme: &S,
        number: Option<u32>,
        scratch: &mut [u8],
        out: &mut [u8],
    ) -> CallResult
        ensures sizes_and_change_stay { Vaults.same_vault self.new self.old }
        ensures by_the_rules { Calls.Step (Vaults.constant self.old (S.Scheme.holds scheme.now)) (Vaults.state controllers.now locks.now self.old (B.Board.meaning board.now)) (Vaults.call (Calls.orders number) out.old scratch.old) (Calls.went result (Vaults.state controllers.now locks.now self.new (B.Board.meaning board.now)) out.new scratch.new) }
    {
        self.office.order(self.change, scheme, number, scratch, out)
    }
}
