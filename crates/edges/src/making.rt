// What can be made, and what is refused.
use boards::board::Board;
use boards::keypad::Keypad;
use boards::wheel_board::WheelBoard;
use boards::wheel_door::Wheels;
use std::test::Fail;
use terms::numbers::{Change, KeyNumber, Place, Seat, View};
use terms::refusals::Refusal;
use terms::sizes::Sizes;

// The refusal of what cannot be set up so: number 20 of layer 4, and it points nowhere.
fn is_set_up(refusal: Refusal) -> bool {
    refusal.cause.number() == 20 && refusal.cause.layer().number() == 4 && refusal.place == 0
}

#[test]
fn numbers_have_their_ranges(rt: HostRuntime) {
    // a number, and whether it is a place, a change and a key number
    let table = [
        (0, true, false, true),
        (1, true, true, true),
        (7, true, true, true),
        (8, false, true, true),
        (255, false, true, true),
        (256, false, false, true),
        (999_999, false, false, true),
        (1_000_000, false, false, false),
        (4_294_967_295, false, false, false),
    ];
    for &(n, place, change, key) in &table {
        assert!(rt; Place::new(n).is_some() == place);
        assert!(rt; Change::new(n).is_some() == change);
        assert!(rt; KeyNumber::new(n).is_some() == key);
    }
    assert!(rt; Seat::new(15).is_some() && Seat::new(16).is_none());
    assert!(rt; View::new(0).number() == 0 && View::new(255).number() == 255);
}

#[test]
fn sizes_have_their_ranges(rt: HostRuntime) {
    let table = [
        (0, 1, false),
        (1, 0, false),
        (1, 1, true),
        (1, 8, true),
        (1, 9, false),
        (5, 1, true),
        (5, 8, true),
        (6, 1, false),
        (4_294_967_295, 1, false),
        (1, 4_294_967_295, false),
    ];
    for &(faults, locks, fits) in &table {
        match Sizes::new(faults, locks) {
            Ok(sizes) => {
                assert!(rt; fits);
                assert!(rt; sizes.faults() as u32 == faults && sizes.locks() as u32 == locks);
                let seats = sizes.seats() as u32;
                assert!(rt; sizes.seat(seats - 1).is_some() && sizes.seat(seats).is_none());
                assert!(rt; sizes.place(locks - 1).is_some() && sizes.place(locks).is_none());
            }
            Err(refusal) => assert!(rt; !fits && is_set_up(refusal)),
        }
    }
}

#[test]
fn parties_have_their_numbers(rt: HostRuntime) -> Result<(), Fail> {
    let sizes = Sizes::new(1, 8).map_err(|_| "no sizes")?;
    let table = [
        (0, true),
        (3, true),
        (4, false),
        (31, false),
        (32, true),
        (39, true),
        (40, false),
        (63, false),
        (64, true),
        (65, false),
    ];
    for &(n, present) in &table {
        match sizes.party(n) {
            Some(party) => assert!(rt; present && party.number() == n),
            None => assert!(rt; !present),
        }
    }
    Ok(())
}

#[test]
fn boards_have_one_to_eight_places(rt: HostRuntime) {
    let numbers = [0u32; 9];
    let wheels = [Wheels { a: 0, b: 0, c: 0 }; 9];
    for n in 0..10 {
        let fits = n >= 1 && n <= 8;
        match Keypad::new(&numbers[..n]) {
            Ok(board) => assert!(rt; fits && board.places() as usize == n),
            Err(refusal) => assert!(rt; !fits && is_set_up(refusal)),
        }
        match WheelBoard::new(&wheels[..n]) {
            Ok(board) => assert!(rt; fits && board.places() as usize == n),
            Err(refusal) => assert!(rt; !fits && is_set_up(refusal)),
        }
    }
}

#[test]
fn any_key_number_is_in_force_on_a_keypad(rt: HostRuntime) {
    let table = [
        (0, true),
        (111_111, true),
        (111_112, true),
        (999_999, true),
        (1_000_000, false),
        (4_294_967_295, false),
    ];
    for &(number, fits) in &table {
        match Keypad::new(&[5, number]) {
            Ok(board) => assert!(rt;
                fits && in_force(&board, 0) == Some(5) && in_force(&board, 1) == Some(number)
            ),
            Err(refusal) => assert!(rt; !fits && is_set_up(refusal)),
        }
    }
}

#[test]
fn wheels_stand_at_0_to_99(rt: HostRuntime) {
    // where the wheels of a place are to stand, the number, and whether they can stand so
    let table = [
        (0, 0, 0, 0, true),
        (1, 2, 3, 10_203, true),
        (99, 99, 99, 999_999, true),
        (100, 0, 0, 1_000_000, false),
        (0, 100, 0, 10_000, false),
        (0, 0, 100, 100, false),
        (4_294_967_295, 0, 0, 0, false),
    ];
    let first = Wheels { a: 0, b: 0, c: 5 };
    for &(a, b, c, number, fits) in &table {
        match WheelBoard::new(&[first, Wheels { a, b, c }]) {
            Ok(board) => assert!(rt;
                fits && in_force(&board, 0) == Some(5) && in_force(&board, 1) == Some(number)
            ),
            Err(refusal) => assert!(rt; !fits && is_set_up(refusal)),
        }
    }
}

// The number in force at a place.
fn in_force<B: Board>(board: &B, place: u32) -> Option<u32> {
    let place = Place::new(place)?;
    board.in_force(place).map(KeyNumber::value)
}
