// What a place of a board shows.
ghost use Rattle.std.specs.Prelude.{◌≡◌};
ghost use Rattle.boards.specs.Boards as Boards;

use terms::numbers::KeyNumber;

// The number in force at a place, and the staged one, if there is one.
#[derive(Clone, Copy)]
pub struct Door {
    pub force: KeyNumber,
    pub staged: Option<KeyNumber>,
}

impl Door {
    // A number in force and nothing staged.
    pub(crate) fn idle(force: KeyNumber) -> Door
        ensures { result ≡ Boards.idle force }
    {
        Door {
            force,
            staged: None,
        }
    }
}
