// What is told of a refusal.
use std::io;
use terms::refusals::Refusal;

// For answers that the program counts on: a refusal ends it with its sentence.
pub fn or_sentence<T>(answer: Result<T, Refusal>) -> anyhow::Result<T> {
    Ok(answer.map_err(|refusal| refusal.cause)?)
}

pub fn print_refusal(rt: &impl Print, refusal: Refusal) -> io::Result<()> {
    let cause = refusal.cause;
    let number = cause.number();
    let layer = cause.layer().number();
    let place = refusal.place;
    println!(rt; "Opened, it is refused: {cause} (refusal {number}, layer {layer}, place {place}).")
}
