// What sizes, parties and causes answer.
use std::test::Fail;
use terms::numbers::{Change, Place, View};
use terms::parties::Party;
use terms::refusals::{CallCause, Cause, FormCause, RuleCause, SealCause};
use terms::sizes::Sizes;

#[test]
fn seats_and_quorums_grow_with_the_faults(rt: HostRuntime) -> Result<(), Fail> {
    // faults, seats, and how many of them are a quorum
    let table = [(1, 4, 3), (2, 7, 5), (3, 10, 7), (4, 13, 9), (5, 16, 11)];
    for &(faults, seats, quorum) in &table {
        let sizes = Sizes::new(faults, 1).map_err(|_| "no sizes")?;
        assert!(rt; sizes.seats() == seats && sizes.quorum() == quorum);
    }
    Ok(())
}

#[test]
fn leaders_take_turns(rt: HostRuntime) -> Result<(), Fail> {
    // faults, a view, and the seat that leads it
    let table = [
        (1, 0, 0),
        (1, 3, 3),
        (1, 4, 0),
        (1, 255, 3),
        (2, 6, 6),
        (2, 7, 0),
        (2, 9, 2),
        (5, 15, 15),
        (5, 16, 0),
        (5, 255, 15),
    ];
    let first = Change::new(1).ok_or("no change")?;
    let last = Change::new(255).ok_or("no change")?;
    for &(faults, view, seat) in &table {
        let sizes = Sizes::new(faults, 8).map_err(|_| "no sizes")?;
        assert!(rt; sizes.leader(first, View::new(view)).number() == seat);
        assert!(rt; sizes.leader(last, View::new(view)).number() == seat);
    }
    Ok(())
}

#[test]
fn parties_of_each_sort_have_numbers_of_their_own(rt: HostRuntime) -> Result<(), Fail> {
    let sizes = Sizes::new(5, 8).map_err(|_| "no sizes")?;
    let seat = sizes.seat(15).ok_or("no seat")?;
    let first = Place::new(0).ok_or("no place")?;
    let last = Place::new(7).ok_or("no place")?;
    assert!(rt; seat.number() == 15 && Party::Controller(seat).number() == 15);
    assert!(rt; Party::Lock(first).number() == 32 && Party::Lock(last).number() == 39);
    assert!(rt; Party::Office.number() == 64);
    Ok(())
}

#[test]
fn causes_tell_their_number_layer_and_sentence(rt: HostRuntime) {
    let table = [
        (
            Cause::Form(FormCause::EndsInField),
            1,
            1,
            "the letter ends inside a field",
        ),
        (
            Cause::Form(FormCause::OutOfRange),
            3,
            1,
            "a field of the letter is out of range",
        ),
        (
            Cause::Call(CallCause::NumberOutOfRange),
            3,
            4,
            "the ordered number is out of range",
        ),
        (
            Cause::Seal(SealCause::Inner),
            6,
            2,
            "a seal inside the letter is not accepted",
        ),
        (
            Cause::Rule(RuleCause::OtherChange),
            7,
            3,
            "the letter belongs to another change",
        ),
        (
            Cause::Rule(RuleCause::LastView),
            17,
            3,
            "there is no view after this one",
        ),
        (
            Cause::Call(CallCause::NoSuchUnit),
            18,
            4,
            "there is no such unit",
        ),
    ];
    for &(cause, number, layer, sentence) in &table {
        assert!(rt; cause.number() == number && cause.layer().number() == layer);
        assert!(rt; cause.sentence() == sentence);
    }
}
