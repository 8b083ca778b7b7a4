// Questions to a vault. A unit that is absent, or that the lent table does not reach, answers none.
ghost use Rattle.std.specs.Prelude.{◌≡◌};
ghost use Rattle.vault.specs.Questions as Questions;

use crate::vault::Vault;
use boards::board::Board;
use controllers::controller::Controller;
use locks::lock::{Lock, Standing};
use terms::numbers::{KeyNumber, View};
use terms::parties::Outcome;

impl Vault {
    // The view of the controller at a seat.
    pub fn view(&self, controllers: &[Controller], seat: u32) -> Option<View>
        ensures { result ≡ Questions.view_at self.now controllers.now seat }
    {
        let at = self.seat_at(seat, controllers.len()).ok()?;
        Some(controllers[at].view())
    }

    // The result that the controller at a seat holds, if it holds one.
    pub fn result(&self, controllers: &[Controller], seat: u32) -> Option<Outcome>
        ensures { result ≡ Questions.result_at self.now controllers.now seat }
    {
        let at = self.seat_at(seat, controllers.len()).ok()?;
        controllers[at].result()
    }

    // How far the lock at a place has come.
    pub fn standing(&self, locks: &[Lock], place: u32) -> Option<Standing>
        ensures { result ≡ Questions.standing_at self.now locks.now place }
    {
        let at = self.place_at(place, locks.len()).ok()?;
        Some(locks[at].standing())
    }

    // The number in force at a lock's place.
    pub fn in_force<B: Board>(&self, board: &B, place: u32) -> Option<KeyNumber>
        ensures { result ≡ Questions.force_at self.now (B.Board.meaning board.now) place }
    {
        board.in_force(self.sizes.place(place)?)
    }

    // The number staged at a lock's place, if there is one.
    pub fn staged<B: Board>(&self, board: &B, place: u32) -> Option<KeyNumber>
        ensures { result ≡ Questions.staged_number_at self.now (B.Board.meaning board.now) place }
    {
        board.staged(self.sizes.place(place)?)
    }
}
