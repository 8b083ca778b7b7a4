// What the calls of a board answer at their edges, and what they leave.
use boards::board::Board;
use boards::keypad::Keypad;
use boards::wheel_board::WheelBoard;
use boards::wheel_door::Wheels;
use std::process::Abort;
use std::test::Fail;
use terms::numbers::{KeyNumber, Place};

// Whether a place shows these two numbers.
fn shows<B: Board>(board: &B, place: Place, force: Option<u32>, staged: Option<u32>) -> bool {
    board.in_force(place).map(KeyNumber::value) == force
        && board.staged(place).map(KeyNumber::value) == staged
}

// A test of its own for what each kind of board takes: the tables are of different numbers.
#[test]
fn a_keypad_takes_no_digit_six_times(rt: HostRuntime) -> Result<(), Fail> {
    let table = [
        (0, false),
        (1, true),
        (111_110, true),
        (111_111, false),
        (111_112, true),
        (888_888, false),
        (999_998, true),
        (999_999, false),
        (1_000_000, false),
        (1_000_001, false),
        (4_294_967_295, false),
    ];
    let board = Keypad::new(&[0]).map_err(|_| "no board")?;
    let first = Place::new(0).ok_or("no place")?;
    let absent = Place::new(1).ok_or("no place")?;
    for &(number, taken) in &table {
        assert!(rt; board.takes(first, number) == taken);
        assert!(rt; !board.takes(absent, number));
    }
    Ok(())
}

#[test]
fn wheels_take_last_digits_from_20(rt: HostRuntime) -> Result<(), Fail> {
    let table = [
        (0, false),
        (19, false),
        (20, true),
        (99, true),
        (100, false),
        (119, false),
        (120, true),
        (999_919, false),
        (999_920, true),
        (999_999, true),
        (1_000_020, false),
        (4_294_967_295, false),
    ];
    let board = WheelBoard::new(&[Wheels { a: 0, b: 0, c: 0 }]).map_err(|_| "no board")?;
    let first = Place::new(0).ok_or("no place")?;
    let absent = Place::new(1).ok_or("no place")?;
    for &(number, taken) in &table {
        assert!(rt; board.takes(first, number) == taken);
        assert!(rt; !board.takes(absent, number));
    }
    Ok(())
}

#[test]
fn wheels_turn_half_way_round(rt: HostRuntime) -> Result<(), Fail> {
    // where the three wheels stand, the number in force, and the one to be staged:
    // 49 forth and 50 back from every side
    let table = [
        (10, 101_010, 596_059),
        (10, 101_010, 605_960),
        (0, 0, 495_049),
        (0, 0, 504_950),
        (99, 999_999, 484_948),
        (99, 999_999, 494_849),
        (50, 505_050, 9_999),
        (50, 505_050, 990_050),
    ];
    let place = Place::new(0).ok_or("no place")?;
    for &(at, force, next) in &table {
        let wheels = Wheels {
            a: at,
            b: at,
            c: at,
        };
        let mut board = WheelBoard::new(&[wheels]).map_err(|_| "no board")?;
        let number = KeyNumber::new(next).ok_or("no key number")?;
        assert!(rt; board.stage(place, number) && shows(&board, place, Some(force), Some(next)));
        assert!(rt; board.take_over(place) && shows(&board, place, Some(next), None));
    }
    Ok(())
}

// Every call at the last place of a board of two, whose numbers are 7 and 8.
fn calls_change_one_place<B: Board>(rt: &impl Abort, board: &mut B) -> Result<(), Fail> {
    let other = Place::new(0).ok_or("no place")?;
    let place = Place::new(board.places() - 1).ok_or("no place")?;
    let first = KeyNumber::new(123_456).ok_or("no key number")?;
    let second = KeyNumber::new(123_457).ok_or("no key number")?;
    assert!(rt; !board.take_over(place) && !board.drop_staged(place));
    assert!(rt; shows(board, place, Some(8), None));
    assert!(rt; board.stage(place, first) && shows(board, place, Some(8), Some(123_456)));
    assert!(rt; !board.stage(place, second) && !board.stage(place, first));
    assert!(rt; shows(board, place, Some(8), Some(123_456)) && shows(board, other, Some(7), None));
    assert!(rt; board.drop_staged(place) && shows(board, place, Some(8), None));
    assert!(rt; !board.drop_staged(place) && board.stage(place, second));
    assert!(rt; board.take_over(place) && shows(board, place, Some(123_457), None));
    assert!(rt; !board.take_over(place) && shows(board, place, Some(123_457), None));
    assert!(rt; shows(board, other, Some(7), None) && board.places() == 2);
    Ok(())
}

// No call changes a board of two places at a place that it has not.
fn absent_places_answer_no<B: Board>(rt: &impl Abort, board: &mut B) -> Result<(), Fail> {
    let number = KeyNumber::new(123_456).ok_or("no key number")?;
    for n in 2..8 {
        let absent = Place::new(n).ok_or("no place")?;
        assert!(rt; shows(board, absent, None, None) && !board.takes(absent, 123_456));
        assert!(rt; !board.stage(absent, number) && !board.take_over(absent));
        assert!(rt; !board.drop_staged(absent) && shows(board, absent, None, None));
    }
    Ok(())
}

// What a board does not take is not staged.
fn untaken_numbers_stay_out<B: Board>(
    rt: &impl Abort,
    board: &mut B,
    untaken: u32,
) -> Result<(), Fail> {
    let place = Place::new(0).ok_or("no place")?;
    let number = KeyNumber::new(untaken).ok_or("no key number")?;
    assert!(rt; !board.stage(place, number) && shows(board, place, Some(7), None));
    Ok(())
}

#[test]
fn a_keypad_serves_every_call(rt: HostRuntime) -> Result<(), Fail> {
    let mut board = Keypad::new(&[7, 8]).map_err(|_| "no board")?;
    for &untaken in &[0, 111_111, 999_999] {
        untaken_numbers_stay_out(&rt, &mut board, untaken)?;
    }
    absent_places_answer_no(&rt, &mut board)?;
    calls_change_one_place(&rt, &mut board)
}

#[test]
fn a_wheel_board_serves_every_call(rt: HostRuntime) -> Result<(), Fail> {
    let mut board = WheelBoard::new(&[
        Wheels { a: 0, b: 0, c: 7 },
        Wheels { a: 0, b: 0, c: 8 },
    ]).map_err(|_| "no board")?;
    for &untaken in &[0, 19, 999_919] {
        untaken_numbers_stay_out(&rt, &mut board, untaken)?;
    }
    absent_places_answer_no(&rt, &mut board)?;
    calls_change_one_place(&rt, &mut board)
}
