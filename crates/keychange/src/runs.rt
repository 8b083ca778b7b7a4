// Changes on a keypad board and on a wheel board, some that go through and some that do not.
use crate::change::change_to;
use crate::refused::or_sentence;
use anyhow::Context;
use boards::board::Board;
use boards::keypad::Keypad;
use boards::wheel_board::WheelBoard;
use boards::wheel_door::Wheels;
use terms::numbers::{KeyNumber, Place};

fn key(number: u32) -> anyhow::Result<KeyNumber> {
    KeyNumber::new(number).context("not a key number")
}

fn on_a_keypad(rt: &impl Print, number: u32) -> anyhow::Result<()> {
    let mut board = or_sentence(Keypad::new(&[123, 999_999, 7]))?;
    change_to(rt, &mut board, key(number)?)?;
    Ok(())
}

pub fn keypad_goes_through(rt: &impl Print) -> anyhow::Result<()> {
    println!(rt; "A keypad board is to show 005020.")?;
    on_a_keypad(rt, 5_020)
}

pub fn keypad_refuses(rt: &impl Print) -> anyhow::Result<()> {
    println!(rt; "A keypad board is to show 111111, one digit six times over.")?;
    on_a_keypad(rt, 111_111)
}

pub fn one_place_refuses(rt: &impl Print) -> anyhow::Result<()> {
    println!(rt; "A keypad board with 004711 staged at place 1 is to show 005020.")?;
    let mut board = or_sentence(Keypad::new(&[123, 999_999, 7]))?;
    if let Some(place) = Place::new(1) {
        board.stage(place, key(4_711)?);
    }
    change_to(rt, &mut board, key(5_020)?)?;
    Ok(())
}

pub fn wheels_go_through(rt: &impl Print) -> anyhow::Result<()> {
    println!(rt; "A wheel board is to show 005020.")?;
    let first = Wheels { a: 0, b: 1, c: 23 };
    let second = Wheels { a: 99, b: 0, c: 70 };
    let mut board = or_sentence(WheelBoard::new(&[first, second]))?;
    change_to(rt, &mut board, key(5_020)?)?;
    Ok(())
}

pub fn wheels_refuse(rt: &impl Print) -> anyhow::Result<()> {
    println!(rt; "A wheel board is to show 005019, whose last two digits are below 20.")?;
    let mut board = or_sentence(WheelBoard::new(&[Wheels { a: 0, b: 1, c: 23 }]))?;
    change_to(rt, &mut board, key(5_019)?)?;
    Ok(())
}
