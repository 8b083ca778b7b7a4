// Setting up a vault.
ghost use Rattle.std.specs.Prelude.{◌≡◌, ℕ, ◌+◌, ◌*◌, ◌<◌, ◌≤◌, cond, length, nat_lt, Some, None};
ghost use Rattle.terms.specs.Numbers.{place};
ghost use Rattle.boards.specs.Boards.{how_many, has_staged};
ghost use Rattle.vault.specs.SetUps as SetUps;

use crate::vault::Vault;
use boards::board::Board;
use controllers::controller::Controller;
use locks::lock::Lock;
use office::Office;
use terms::numbers::{Change, Place, Seat};
use terms::refusals::{Refusal, set_up as cannot_set_up};
use terms::sizes::Sizes;

// A unit that a table holds at its number.
trait Numbered: Sized {
    // How many numbers there are.
    ghost numbers: { ℕ };

    ghost new_at: { ℕ → Self };

    // A new one with this number.
    fn new_at(n: u8) -> Option<Self>
        ensures { result ≡ cond (nat_lt n numbers) (Some (new_at n)) None };
}

impl Numbered for Controller {
    ghost numbers = { 16 };

    ghost new_at = { SetUps.new_controller };

    fn new_at(n: u8) -> Option<Controller> {
        Seat::new(n as u32).map(Controller::new)
    }
}

impl Numbered for Lock {
    ghost numbers = { 8 };

    ghost new_at = { SetUps.new_lock };

    fn new_at(n: u8) -> Option<Lock> {
        Place::new(n as u32).map(Lock::new)
    }
}

// Makes the first units of a table new.
fn renew<U: Numbered + Drop>(units: &mut [U], count: u8)
    requires { (count ≤ U.numbers) × (count ≤ length units.old) }
    ensures { units.new ≡ SetUps.renewed U.new_at count units.old }
{
    // By number: a unit is made from its own, which is also its row.
    for n in 0..count {
        if let Some(unit) = U::new_at(n) {
            units[n as usize] = unit;
        }
    }
}

fn is_staged<B: Board>(board: &B, n: u32) -> bool
    requires { n < 8 }
    ensures { result ≡ has_staged (B.Board.meaning board.now) (place n) }
{
    Place::new(n).is_some_and(|place| board.staged(place).is_some())
}

// Nothing is staged at any place.
fn is_idle<B: Board>(board: &B) -> bool
    ensures { result ≡ SetUps.unstaged_below (B.Board.meaning board.now) (how_many (B.Board.meaning board.now)) }
{
    (0..board.places()).all(|n| !is_staged(board, n))
}

// The tables hold all units of a vault of these sizes, and the board has a place for each lock, with
// nothing staged.
fn is_furnished<B: Board>(
    sizes: Sizes,
    board: &B,
    controllers: &[Controller],
    locks: &[Lock],
) -> bool
    ensures { result ≡ SetUps.furnished sizes.faults sizes.locks (B.Board.meaning board.now) controllers.now locks.now }
{
    controllers.len() >= sizes.seats() as usize
        && locks.len() >= sizes.locks() as usize
        && board.places() >= sizes.locks() as u32
        && is_idle(board)
}

fn set_up_sized<B: Board>(
    sizes: Sizes,
    change: u32,
    board: &B,
    controllers: &mut [Controller],
    locks: &mut [Lock],
) -> Result<Vault, Refusal>
    ensures answer { SetUps.told result ≡ SetUps.vault_set_up (SetUps.accepts sizes.faults sizes.locks change (B.Board.meaning board.now) controllers.old locks.old) sizes.faults sizes.locks change }
    ensures controllers { controllers.new ≡ SetUps.controllers_set_up (SetUps.accepts sizes.faults sizes.locks change (B.Board.meaning board.now) controllers.old locks.old) sizes.faults controllers.old }
    ensures locks { locks.new ≡ SetUps.locks_set_up (SetUps.accepts sizes.faults sizes.locks change (B.Board.meaning board.now) controllers.old locks.old) sizes.locks locks.old }
{
    let Some(change) = Change::new(change) else {
        return Err(cannot_set_up());
    };
    if !is_furnished(sizes, board, controllers, locks) {
        return Err(cannot_set_up());
    }
    renew(controllers, sizes.seats());
    renew(locks, sizes.locks());
    Ok(Vault {
        sizes,
        change,
        office: Office::new(),
    })
}

fn set_up_from<B: Board>(
    faults: u32,
    lock_count: u32,
    change: u32,
    board: &B,
    controllers: &mut [Controller],
    locks: &mut [Lock],
) -> Result<Vault, Refusal>
    ensures answer { SetUps.told result ≡ SetUps.vault_set_up (SetUps.sets_up faults lock_count change (B.Board.meaning board.now) controllers.old locks.old) faults lock_count change }
    ensures controllers { controllers.new ≡ SetUps.controllers_set_up (SetUps.sets_up faults lock_count change (B.Board.meaning board.now) controllers.old locks.old) faults controllers.old }
    ensures locks { locks.new ≡ SetUps.locks_set_up (SetUps.sets_up faults lock_count change (B.Board.meaning board.now) controllers.old locks.old) lock_count locks.old }
{
    let sizes = Sizes::new(faults, lock_count)?;
    set_up_sized(sizes, change, board, controllers, locks)
}

// Sets up a vault: makes the first records of both tables new. Sizes, change number, tables or board
// that do not fit are refused, and all is left as it was.
pub fn set_up<B: Board>(
    faults: u32,
    lock_count: u32,
    change: u32,
    board: &B,
    controllers: &mut [Controller],
    locks: &mut [Lock],
) -> Result<Vault, Refusal>
    ensures answer { SetUps.told result ≡ SetUps.vault_set_up (SetUps.sets_up faults lock_count change (B.Board.meaning board.now) controllers.old locks.old) faults lock_count change }
    ensures controllers { controllers.new ≡ SetUps.controllers_set_up (SetUps.sets_up faults lock_count change (B.Board.meaning board.now) controllers.old locks.old) faults controllers.old }
    ensures locks { locks.new ≡ SetUps.locks_set_up (SetUps.sets_up faults lock_count change (B.Board.meaning board.now) controllers.old locks.old) lock_count locks.old }
    ensures starts_lists_of_calls { SetUps.Starts result controllers.new locks.new (B.Board.meaning board.now) }
{
    set_up_from(faults, lock_count, change, board, controllers, locks)
}
