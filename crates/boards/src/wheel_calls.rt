// What the wheel board does.
ghost use Rattle.std.specs.Prelude.{◌≡◌, map};
ghost use Rattle.boards.specs.Boards.{meant};
ghost use Rattle.boards.specs.Wheels.{in_range, wheels_number, shown, wheel_takes};
ghost use Rattle.boards.specs.WheelBoards.{wheel_meaning, wheel_board_of};
ghost use Rattle.std.proofs.Common.{refl};

use crate::door_kind::DoorKind;
use crate::row::Row;
use crate::wheel_board::WheelBoard;
use crate::wheel_door::{Setting, WheelDoor, Wheels};
use terms::numbers::KeyNumber;
use terms::refusals::Refusal;

impl WheelBoard {
    // A board with its wheels set so and nothing staged.
    pub fn new(wheels: &[Wheels]) -> Result<WheelBoard, Refusal>
        ensures { meant wheel_meaning result ≡ wheel_board_of wheels.now }
    {
        Row::fitted(wheels)
    }
}

impl DoorKind for WheelDoor {
    type Entry = Wheels;

    ghost fits = { in_range };

    ghost entry_number = { wheels_number };

    ghost shown = { shown };

    ghost all_shown = { map shown };

    ghost rule = { wheel_takes };

    ghost each_shown = { λ ds. refl };

    fn new(wheels: Wheels) -> Option<WheelDoor> {
        Setting::new(wheels).map(WheelDoor::idle)
    }

    fn blank() -> WheelDoor {
        WheelDoor::idle(Setting::showing(0))
    }

    fn in_force(self) -> KeyNumber {
        self.wheels.number()
    }

    fn staged(self) -> Option<KeyNumber> {
        self.turns.map(|turns| self.wheels.turned(turns).number())
    }

    // A key number whose last two digits are 20 or more.
    fn takes(number: u32) -> bool {
        KeyNumber::new(number).is_some() && number % 100 >= 20
    }

    fn with_staged(self, number: KeyNumber) -> WheelDoor {
        let turns = self.wheels.turns_to(Setting::showing(number.value()));
        WheelDoor {
            wheels: self.wheels,
            turns: Some(turns),
        }
    }

    fn taken_over(self) -> Option<WheelDoor> {
        self.turns
            .map(|turns| WheelDoor::idle(self.wheels.turned(turns)))
    }

    fn dropped(self) -> Option<WheelDoor> {
        self.turns.map(|_| WheelDoor::idle(self.wheels))
    }
}
