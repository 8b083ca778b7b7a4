// The doors of a board, as a table.
use boards::board::Board;
use std::{fmt, io};
use terms::numbers::{KeyNumber, Place};

// A number as a door shows it: six digits, or dashes where there is none.
#[derive(Clone, Copy)]
pub struct Digits(pub Option<KeyNumber>);

impl fmt::Display for Digits {
    fn fmt<W: fmt::Write>(&self, f: &mut fmt::Formatter<W>) -> fmt::Result {
        match self.0 {
            Some(number) => write!(f, "{:06}", number.value()),
            None => write!(f, "------"),
        }
    }
}

fn print_row<B: Board>(rt: &impl Print, board: &B, place: Place) -> io::Result<()> {
    let p = place.number();
    let force = Digits(board.in_force(place));
    let staged = Digits(board.staged(place));
    println!(rt; "  {p}      {force}    {staged}")
}

// One row for each place: the number in force, and the staged one.
pub fn print_doors<B: Board>(rt: &impl Print, board: &B) -> io::Result<()> {
    println!(rt; "  place  in force  staged")?;
    for place in (0..board.places()).filter_map(Place::new) {
        print_row(rt, board, place)?;
    }
    Ok(())
}
