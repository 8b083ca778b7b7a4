// What a row of doors does.
ghost use Rattle.std.specs.Prelude.{◌≡◌};
ghost use Rattle.std.specs.Option.{option_map};
ghost use Rattle.boards.specs.Boards.{door_at, with_door, made, meant};
ghost use Rattle.boards.specs.Rows.{row_meaning};
ghost use Rattle.std.proofs.Common.{rules};
ghost use Rattle.std.proofs.lemmas.List.{length-map};

use crate::board::Board;
use crate::door_kind::DoorKind;
use crate::row::Row;
use terms::numbers::{KeyNumber, Place};
use terms::refusals::{Refusal, set_up};

impl<D: DoorKind> Row<D> {
    // A board with the numbers of these entries in force and nothing staged.
    #[tactic(auto, using(crate::proofs::Made::filled_unfit, crate::proofs::Made::filled_fit, crate::proofs::Made::filled_all))]
    pub(crate) fn fitted(entries: &[D::Entry]) -> Result<Row<D>, Refusal>
        ensures { meant (row_meaning D.all_shown D.rule) result ≡ made D.fits D.entry_number D.rule entries.now }
    {
        if entries.len() < 1 || entries.len() > 8 {
            return Err(set_up());
        }
        let mut doors = [D::blank(); 8];
        // By index: after a loop over `iter_mut` and a second list, what was written
        // is not known to a proof.
        for (i, entry) in entries.iter().enumerate() {
            doors[i] = D::new(*entry).ok_or(set_up())?;
        }
        Ok(Row {
            doors,
            places: entries.len() as u8,
        })
    }

    fn door(&self, place: Place) -> Option<D>
        ensures { option_map D.shown result ≡ door_at (row_meaning D.all_shown D.rule self.now) place }
    {
        self.doors[..self.places as usize]
            .get(place.number() as usize)
            .copied()
    }

    // Puts a door at a place, if the board has the place.
    #[tactic(auto, using(crate::proofs::Rows::row_of_set))]
    fn put(&mut self, place: Place, door: D)
        ensures { row_meaning D.all_shown D.rule self.new ≡ with_door (row_meaning D.all_shown D.rule self.old) place (D.shown door) }
    {
        if place.number() < self.places {
            self.doors[place.number() as usize] = door;
        }
    }
}

impl<D: DoorKind> Board for Row<D> {
    ghost meaning = { row_meaning D.all_shown D.rule };

    ghost one_to_eight_places = { Prim.search (rules, D.each_shown, length-map) };

    fn places(&self) -> u32 {
        self.places as u32
    }

    fn in_force(&self, place: Place) -> Option<KeyNumber> {
        self.door(place).map(D::in_force)
    }

    fn staged(&self, place: Place) -> Option<KeyNumber> {
        self.door(place)?.staged()
    }

    fn takes(&self, place: Place, number: u32) -> bool {
        place.number() < self.places && D::takes(number)
    }

    fn stage(&mut self, place: Place, number: KeyNumber) -> bool {
        let Some(door) = self.door(place) else {
            return false;
        };
        if door.staged().is_some() || !D::takes(number.value()) {
            return false;
        }
        self.put(place, door.with_staged(number));
        true
    }

    // This and dropping differ in a step that is the door's own; what is left is to
    // look and to put, and a function with the step as its argument is no shorter.
    fn take_over(&mut self, place: Place) -> bool {
        let Some(door) = self.door(place).and_then(D::taken_over) else {
            return false;
        };
        self.put(place, door);
        true
    }

    fn drop_staged(&mut self, place: Place) -> bool {
        let Some(door) = self.door(place).and_then(D::dropped) else {
            return false;
        };
        self.put(place, door);
        true
    }
}
