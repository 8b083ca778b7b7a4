// What any kind of door does.
ghost use Rattle.std.specs.Prelude.{◌≡◌, ℕ, Bool, List, map, true, Some};
ghost use Rattle.terms.specs.Numbers.{key, within};
ghost use Rattle.boards.specs.declared.door.Door.{Door};
ghost use Rattle.boards.specs.Boards.{door, idle};
ghost use Rattle.std.specs.Option.{option_map};

use terms::numbers::KeyNumber;

// A kind of door is known by what its doors show, by what they are set up from, and
// by which numbers they take.
pub(crate) trait DoorKind: Copy {
    type Entry: Copy;

    // Which entries fit, and the number of one.
    ghost fits: { Self.Entry → Bool };

    ghost entry_number: { Self.Entry → ℕ };

    // What a door shows, and what a row of doors does.
    ghost shown: { Self → Door };

    ghost all_shown: { List Self → List Door };

    // Which numbers the doors take.
    ghost rule: { ℕ → Bool };

    // A door with the number of an entry in force and nothing staged, if the entry fits.
    fn new(entry: Self::Entry) -> Option<Self>
        ensures { option_map shown result ≡ within (fits entry) (idle (key (entry_number entry))) };

    // The door of a place that is not used.
    fn blank() -> Self;

    fn in_force(self) -> KeyNumber
        ensures { result ≡ (shown self).force };

    fn staged(self) -> Option<KeyNumber>
        ensures { result ≡ (shown self).staged };

    fn takes(number: u32) -> bool
        ensures { result ≡ rule number };

    // The number in force stays, and this one is staged.
    fn with_staged(self, number: KeyNumber) -> Self
        requires { rule number.0 ≡ true }
        ensures { shown result ≡ door (shown self).force (Some number) };

    // The staged number, if there is one, in force and nothing staged.
    fn taken_over(self) -> Option<Self>
        ensures { option_map shown result ≡ option_map idle (shown self).staged };

    // The number in force, if another is staged, and nothing staged.
    fn dropped(self) -> Option<Self>
        ensures { option_map shown result ≡ option_map (λ _. idle (shown self).force) (shown self).staged };

    // A row shows what each of its doors does.
    ghost each_shown: { (doors : List Self) → all_shown doors ≡ map shown doors };
}
