// One new number for all the doors of a board.
ghost use Rattle.std.specs.Prelude.{◌≡◌, Ok, Err};
ghost use Rattle.boards.specs.Boards.{stages, after_stage, after_take_over, after_drop};
ghost use Rattle.keychange.specs.Everywhere as Everywhere;

use crate::doors::{Digits, print_doors};
use boards::board::Board;
use std::io;
use terms::numbers::{KeyNumber, Place};

// Whether the place took the number.
fn stage_at<B: Board>(
    rt: &impl Print,
    board: &mut B,
    place: Place,
    number: KeyNumber,
) -> io::Result<bool>
    ensures answer { elim result [ Ok took ↦ took ≡ stages (B.meaning board.old) place number | Err e ↦ Unit {0} ] }
    ensures board_after { B.meaning board.new ≡ after_stage (B.meaning board.old) place number }
{
    let p = place.number();
    let force = Digits(board.in_force(place));
    let next = Digits(Some(number));
    if board.stage(place, number) {
        println!(rt; "Place {p} shows {force} and takes {next}: staged.")?;
        return Ok(true);
    }
    if board.staged(place).is_some() {
        println!(rt; "Place {p} shows {force} and has a number staged already: not staged.")?;
    } else {
        println!(rt; "Place {p} shows {force} and does not take {next}: not staged.")?;
    }
    Ok(false)
}

// Stages the number at every place, and says whether all took it. Here and below the places go by number: what
// the board has become is told by how many places are done.
#[tactic(auto, unfolding(crate::specs::Everywhere::staged_to, crate::specs::Everywhere::all_took))]
fn stage_everywhere<B: Board>(rt: &impl Print, board: &mut B, number: KeyNumber) -> io::Result<bool>
    ensures { elim result [ Ok all ↦ (all ≡ Everywhere.took (B.meaning board.old) number) × (B.meaning board.new ≡ Everywhere.staged (B.meaning board.old) number) | Err e ↦ Unit {0} ] }
{
    let mut all = true;
    for n in 0..board.places() {
        if let Some(place) = Place::new(n) {
            all &= stage_at(rt, board, place, number)?;
        }
    }
    Ok(all)
}

// Taking over and dropping go from place to place in two loops and not in one over a step: what the step does to
// the lent board would have to be passed in beside it.
fn take_over_at<B: Board>(rt: &impl Print, board: &mut B, place: Place) -> io::Result<()>
    ensures { B.meaning board.new ≡ after_take_over (B.meaning board.old) place }
{
    let p = place.number();
    if !board.take_over(place) {
        return println!(rt; "Place {p} has nothing staged.");
    }
    let force = Digits(board.in_force(place));
    println!(rt; "Place {p} takes over and shows {force}.")
}

#[tactic(auto, unfolding(crate::specs::Everywhere::taken_over_to))]
fn take_over_everywhere<B: Board>(rt: &impl Print, board: &mut B) -> io::Result<()>
    ensures { elim result [ Ok u ↦ B.meaning board.new ≡ Everywhere.taken_over (B.meaning board.old) | Err e ↦ Unit {0} ] }
{
    for n in 0..board.places() {
        if let Some(place) = Place::new(n) {
            take_over_at(rt, board, place)?;
        }
    }
    Ok(())
}

fn drop_at<B: Board>(rt: &impl Print, board: &mut B, place: Place) -> io::Result<()>
    ensures { B.meaning board.new ≡ after_drop (B.meaning board.old) place }
{
    let p = place.number();
    let force = Digits(board.in_force(place));
    if board.drop_staged(place) {
        println!(rt; "Place {p} drops what was staged and goes on showing {force}.")
    } else {
        println!(rt; "Place {p} has nothing to drop and goes on showing {force}.")
    }
}

#[tactic(auto, unfolding(crate::specs::Everywhere::dropped_to))]
fn drop_everywhere<B: Board>(rt: &impl Print, board: &mut B) -> io::Result<()>
    ensures { elim result [ Ok u ↦ B.meaning board.new ≡ Everywhere.dropped (B.meaning board.old) | Err e ↦ Unit {0} ] }
{
    for n in 0..board.places() {
        if let Some(place) = Place::new(n) {
            drop_at(rt, board, place)?;
        }
    }
    Ok(())
}

// Gives all doors the number if every place takes it; else every door keeps its own.
pub fn change_to<B: Board>(rt: &impl Print, board: &mut B, number: KeyNumber) -> io::Result<()>
    ensures { elim result [ Ok u ↦ B.meaning board.new ≡ Everywhere.changed (B.meaning board.old) number | Err e ↦ Unit {0} ] }
{
    print_doors(rt, board)?;
    if stage_everywhere(rt, board, number)? {
        println!(rt; "All places took it, so all take over.")?;
        take_over_everywhere(rt, board)?;
    } else {
        println!(rt; "Not all places took it, so all drop it.")?;
        drop_everywhere(rt, board)?;
    }
    print_doors(rt, board)
}
