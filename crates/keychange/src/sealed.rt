// The letters that begin a change, under their seals: sent, opened, and damaged on the way.
use crate::refused::{or_sentence, print_refusal};
use crate::spelled;
use anyhow::Context;
use letters::bodies::{Body, WholeBody};
use schemes::keys::SheetSeals;
use schemes::scheme::Scheme;
use seals::opening::open;
use seals::sealing::send;
use terms::numbers::{Change, KeyNumber, Place};
use terms::sizes::Sizes;

// Writes the sealed letter of change 7, and says how long it is.
fn send_in_7<S: Scheme>(
    rt: &impl Print,
    scheme: &S,
    body: WholeBody,
    out: &mut [u8],
) -> anyhow::Result<()> {
    let change = Change::new(7).context("not a change")?;
    let mut scratch = [0; 24];
    let sent = or_sentence(send(scheme, change, body, &mut scratch, out))?;
    let length = sent.length;
    println!(rt; "It has {length} bytes:")?;
    Ok(())
}

// Opens the letter in a vault that bears one faulty controller and has three locks.
fn open_and_tell<S: Scheme>(rt: &impl Print, scheme: &S, letter: &[u8]) -> anyhow::Result<()> {
    let sizes = or_sentence(Sizes::new(1, 3))?;
    let mut scratch = [0; 24];
    match open(sizes, scheme, letter, &mut scratch) {
        Ok(opened) => {
            let change = opened.spend().change.number();
            println!(rt; "Opened, it is accepted as a letter of change {change}.")?;
        }
        Err(refusal) => print_refusal(rt, refusal)?,
    }
    Ok(())
}

fn enrolment<S: Scheme>(rt: &impl Print, scheme: &S) -> anyhow::Result<()> {
    println!(rt; "Lock 2 enrols in change 7. Sealed under a sheet of ones its letter reads so.")?;
    let sender = Place::new(2).context("not a place")?;
    let mut letter = [0; 13];
    send_in_7(rt, scheme, Body::Enrol { sender }, &mut letter)?;
    spelled::enrolment(rt, &letter)?;
    open_and_tell(rt, scheme, &letter)
}

fn order<S: Scheme>(rt: &impl Print, scheme: &S) -> anyhow::Result<[u8; 17]> {
    println!(rt;
        "The office orders 123,456 in change 7. Sealed under a sheet of ones its letter reads so."
    )?;
    let number = KeyNumber::new(123_456);
    let mut letter = [0; 17];
    send_in_7(rt, scheme, Body::Order { number }, &mut letter)?;
    spelled::order(rt, &letter)?;
    open_and_tell(rt, scheme, &letter)?;
    Ok(letter)
}

fn bit_turned<S: Scheme>(rt: &impl Print, scheme: &S, order: [u8; 17]) -> anyhow::Result<()> {
    println!(rt;
        "On its way the lowest bit of the order's number is turned, so that it reads 123,457."
    )?;
    let mut letter = order;
    letter[5] ^= 1;
    open_and_tell(rt, scheme, &letter)
}

fn cut_short<S: Scheme>(rt: &impl Print, scheme: &S, order: &[u8]) -> anyhow::Result<()> {
    println!(rt; "On its way the order loses its last byte.")?;
    let (_, letter) = order.split_last().context("no last byte")?;
    open_and_tell(rt, scheme, letter)
}

// Every party has the same sheet here, of ones.
pub fn letters(rt: &impl Print) -> anyhow::Result<()> {
    let sheets = [[1; 25]; 25];
    let scheme = or_sentence(SheetSeals::new(&sheets))?;
    enrolment(rt, &scheme)?;
    rt.println("")?;
    let letter = order(rt, &scheme)?;
    rt.println("")?;
    bit_turned(rt, &scheme, letter)?;
    rt.println("")?;
    cut_short(rt, &scheme, &letter)
}
