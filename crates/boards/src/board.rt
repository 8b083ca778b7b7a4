// What any board does.
ghost use Rattle.std.specs.Prelude.{◌≡◌, ◌≤◌};
ghost use Rattle.boards.specs.Boards.{Meaning, how_many, in_force, staged_at, takes_at, stages, after_stage, takes_over, after_take_over, drops, after_drop};

use terms::numbers::{KeyNumber, Place};

// A row of doors. What it shows is its meaning, and each call says what it does to that.
pub trait Board {
    ghost meaning: { Self → Meaning };

    fn places(&self) -> u32
        ensures { result ≡ how_many (meaning self.now) };

    // The number in force at a place, if the board has the place.
    fn in_force(&self, place: Place) -> Option<KeyNumber>
        ensures { result ≡ in_force (meaning self.now) place };

    // The number staged at a place, if there is one.
    fn staged(&self, place: Place) -> Option<KeyNumber>
        ensures { result ≡ staged_at (meaning self.now) place };

    // Whether a place takes a number, be it a key number or not.
    fn takes(&self, place: Place, number: u32) -> bool
        ensures { result ≡ takes_at (meaning self.now) place number };

    // Stages a number. No, and nothing changes, if the place is absent, something
    // is staged there, or the place does not take the number.
    fn stage(&mut self, place: Place, number: KeyNumber) -> bool
        ensures answer { result ≡ stages (meaning self.old) place number }
        ensures board_after { meaning self.new ≡ after_stage (meaning self.old) place number };

    // Brings the staged number into force. No, and nothing changes, if nothing is staged.
    fn take_over(&mut self, place: Place) -> bool
        ensures answer { result ≡ takes_over (meaning self.old) place }
        ensures board_after { meaning self.new ≡ after_take_over (meaning self.old) place };

    // Forgets the staged number. No, and nothing changes, if nothing is staged.
    fn drop_staged(&mut self, place: Place) -> bool
        ensures answer { result ≡ drops (meaning self.old) place }
        ensures board_after { meaning self.new ≡ after_drop (meaning self.old) place };

    ghost one_to_eight_places: { (b : Self) → (1 ≤ how_many (meaning b)) × (how_many (meaning b) ≤ 8) };
}
