// What the keypad board does.
ghost use Rattle.std.specs.Prelude.{◌≡◌};
ghost use Rattle.terms.specs.Numbers.{is_key};
ghost use Rattle.boards.specs.Boards.{meant};
ghost use Rattle.boards.specs.Keypads.{keypad_takes, keypad_meaning, keypad_of};
ghost use Rattle.std.proofs.Common.{sym};
ghost use Rattle.std.proofs.lemmas.List.{map-id};

use crate::door::Door;
use crate::door_kind::DoorKind;
use crate::keypad::Keypad;
use crate::row::Row;
use terms::numbers::KeyNumber;
use terms::refusals::Refusal;

impl Keypad {
    // A board with these numbers in force and nothing staged.
    pub fn new(numbers: &[u32]) -> Result<Keypad, Refusal>
        ensures { meant keypad_meaning result ≡ keypad_of numbers.now }
    {
        Row::fitted(numbers)
    }
}

impl DoorKind for Door {
    type Entry = u32;

    ghost fits = { is_key };

    ghost entry_number = { λ n. n };

    ghost shown = { λ d. d };

    ghost all_shown = { λ ds. ds };

    ghost rule = { keypad_takes };

    ghost each_shown = { λ ds. sym (map-id ds) };

    fn new(number: u32) -> Option<Door> {
        KeyNumber::new(number).map(Door::idle)
    }

    fn blank() -> Door {
        Door::idle(KeyNumber::new(0).unwrap())
    }

    fn in_force(self) -> KeyNumber {
        self.force
    }

    fn staged(self) -> Option<KeyNumber> {
        self.staged
    }

    // A key number that is not one digit six times over.
    fn takes(number: u32) -> bool {
        KeyNumber::new(number).is_some() && number % 111_111 != 0
    }

    fn with_staged(self, number: KeyNumber) -> Door {
        Door {
            force: self.force,
            staged: Some(number),
        }
    }

    fn taken_over(self) -> Option<Door> {
        self.staged.map(Door::idle)
    }

    fn dropped(self) -> Option<Door> {
        self.staged.map(|_| Door::idle(self.force))
    }
}
