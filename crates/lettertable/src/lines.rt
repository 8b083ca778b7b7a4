// The lines of the table: F, L, the bytes of a letter in hexadecimal, and the answer.
ghost use Rattle.std.specs.Prelude.{◌<◌, Ok, Err};

use crate::answers::{Answer, Refused, answer_to};
use anyhow::{Context, anyhow};
use std::alloc::Global;
use terms::sizes::Sizes;

#[derive(Drop)]
pub struct Line {
    sizes: Sizes,
    bytes: Vec<u8>,
    pub expected: Answer,
}

fn digit(c: u8) -> anyhow::Result<u8>
    ensures { elim result [ Ok d ↦ d < 16 | Err e ↦ Unit {0} ] }
{
    match c {
        b'0'..=b'9' => Ok(c - b'0'),
        b'A'..=b'F' => Ok(c - b'A' + 10),
        _ => Err(anyhow!("not a hexadecimal digit")),
    }
}

fn byte_of(pair: &[u8]) -> anyhow::Result<u8> {
    match pair {
        [high, low] => Ok(digit(*high)? * 16 + digit(*low)?),
        _ => Err(anyhow!("half a byte")),
    }
}

// The bytes in hexadecimal; a dash stands for none.
fn bytes_of(heap: Global, text: &str) -> anyhow::Result<Vec<u8>> {
    let mut bytes = Vec::new(heap);
    if text == "-" {
        return Ok(bytes);
    }
    for pair in text.as_bytes().chunks(2) {
        bytes.push(byte_of(pair)?)?;
    }
    Ok(bytes)
}

fn expected_of(word: &str, first: &str, second: Option<&str>) -> anyhow::Result<Answer> {
    match second {
        None if word == "ok" => Ok(Answer(Ok(first.parse::<u8>()?))),
        Some(place) if word == "refused" => {
            let number = first.parse::<u8>()?;
            let place = place.parse::<usize>()?;
            Ok(Answer(Err(Refused { number, place })))
        }
        _ => Err(anyhow!("not an answer")),
    }
}

impl Line {
    pub fn parse(heap: Global, text: &str) -> anyhow::Result<Line> {
        let mut words = text.split_whitespace();
        let faults = words.next().context("no F")?;
        let locks = words.next().context("no L")?;
        let bytes = words.next().context("no bytes")?;
        let answer = words.next().context("no answer")?;
        let first = words.next().context("no number")?;
        let expected = expected_of(answer, first, words.next())?;
        let sizes = Sizes::new(faults.parse::<u32>()?, locks.parse::<u32>()?).map_err(
            |refusal| refusal.cause,
        )?;
        Ok(Line {
            sizes,
            bytes: bytes_of(heap, bytes)?,
            expected,
        })
    }

    pub fn answer(&self) -> Answer {
        answer_to(self.sizes, self.bytes.as_slice())
    }
}
