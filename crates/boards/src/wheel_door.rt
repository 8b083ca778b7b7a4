// Three wheels, which show a number, and the turns to the next one.
ghost use Rattle.std.specs.Prelude.{◌≡◌, ◌≤◌, pos, negsuc, ◌≤ℤ◌, nat_le};
ghost use Rattle.std.specs.Option.{option_map};
ghost use Rattle.boards.specs.Wheels.{turn_of, turned_by, setting_number, number_after, wheels_number, in_range, shown};
ghost use Rattle.boards.specs.Boards as Boards;
ghost use Rattle.terms.specs.Numbers.{key, within};

use crate::wheel::{Turn, Wheel};
use terms::numbers::KeyNumber;

// Where the three wheels of a door are to stand, each 0 to 99.
#[derive(Clone, Copy)]
pub struct Wheels {
    pub a: u32,
    pub b: u32,
    pub c: u32,
}

// The three wheels of a door. They have names and are no array: each has a weight of
// its own in the number.
#[derive(Clone, Copy)]
pub(crate) struct Setting {
    a: Wheel,
    b: Wheel,
    c: Wheel,
}

// A turn for each wheel of a door.
#[derive(Clone, Copy)]
pub(crate) struct Turns {
    a: Turn,
    b: Turn,
    c: Turn,
}

// A door whose staged number is kept as the turns that lead to it.
#[derive(Clone, Copy)]
pub struct WheelDoor {
    pub(crate) wheels: Setting,
    pub(crate) turns: Option<Turns>,
}

impl Wheel {
    fn new(at: u32) -> Option<Wheel>
        ensures { option_map (λ (w : Wheel). w.at) result ≡ within (nat_le at 99) at }
    {
        if at > 99 {
            return None;
        }
        Some(Wheel { at: at as u8 })
    }

    // The turn that brings this wheel to where another stands.
    #[tactic(auto, using(crate::proofs::Turning::turn_worked_out, crate::proofs::Turning::turn_low, crate::proofs::Turning::turn_high, crate::proofs::Turning::turn_leads_there))]
    fn turn_to(self, to: Wheel) -> Turn
        ensures turn { result.by ≡ turn_of self.at to.at }
        ensures at_most_half_way { (negsuc 49 ≤ℤ result.by) × (result.by ≤ℤ pos 49) }
        ensures brings_it_there { turned_by self.at result.by ≡ to.at }
    {
        Turn {
            by: ((to.at + 150 - self.at) % 100) as i8 - 50,
        }
    }

    #[tactic(auto, using(crate::proofs::Turning::turned_worked_out))]
    fn turned(self, turn: Turn) -> Wheel
        ensures { result.at ≡ turned_by self.at turn.by }
    {
        let on = self.at as i16 + 100 + turn.by as i16;
        Wheel {
            at: (on as u16 % 100) as u8,
        }
    }
}

impl Setting {
    // The wheels so, if each can stand so.
    pub(crate) fn new(wheels: Wheels) -> Option<Setting>
        ensures { option_map setting_number result ≡ within (in_range wheels) (wheels_number wheels) }
    {
        Some(Setting {
            a: Wheel::new(wheels.a)?,
            b: Wheel::new(wheels.b)?,
            c: Wheel::new(wheels.c)?,
        })
    }

    // The setting that shows a number, two digits a wheel.
    pub(crate) fn showing(number: u32) -> Setting
        requires { number ≤ 999999 }
        ensures { setting_number result ≡ number }
    {
        Setting {
            a: Wheel {
                at: (number / 10_000) as u8,
            },
            b: Wheel {
                at: (number / 100 % 100) as u8,
            },
            c: Wheel {
                at: (number % 100) as u8,
            },
        }
    }

    pub(crate) fn number(self) -> KeyNumber
        ensures { result ≡ key (setting_number self) }
    {
        let number = 10_000 * self.a.at as u32 + 100 * self.b.at as u32 + self.c.at as u32;
        KeyNumber::new(number).unwrap()
    }

    pub(crate) fn turns_to(self, to: Setting) -> Turns
        ensures { number_after self result ≡ setting_number to }
    {
        Turns {
            a: self.a.turn_to(to.a),
            b: self.b.turn_to(to.b),
            c: self.c.turn_to(to.c),
        }
    }

    pub(crate) fn turned(self, turns: Turns) -> Setting
        ensures { setting_number result ≡ number_after self turns }
    {
        Setting {
            a: self.a.turned(turns.a),
            b: self.b.turned(turns.b),
            c: self.c.turned(turns.c),
        }
    }
}

impl WheelDoor {
    // Wheels that show their number, and nothing staged.
    pub(crate) fn idle(wheels: Setting) -> WheelDoor
        ensures { shown result ≡ Boards.idle (key (setting_number wheels)) }
    {
        WheelDoor {
            wheels,
            turns: None,
        }
    }
}
