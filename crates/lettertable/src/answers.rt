// What reading a letter comes to.
use reading::read;
use std::fmt;
use terms::refusals::Refusal;
use terms::sizes::Sizes;

// The number and the place of a refusal.
#[derive(Clone, Copy, PartialEq, Eq)]
pub struct Refused {
    pub number: u8,
    pub place: usize,
}

impl From<Refusal> for Refused {
    fn from(refusal: Refusal) -> Refused {
        Refused {
            number: refusal.cause.number(),
            place: refusal.place,
        }
    }
}

// The number of a letter's kind, or its refusal, as a line of the table tells it; a line may expect
// a number that no kind has.
#[derive(Clone, Copy, PartialEq, Eq)]
pub struct Answer(pub Result<u8, Refused>);

impl fmt::Display for Answer {
    fn fmt<W: fmt::Write>(&self, f: &mut fmt::Formatter<W>) -> fmt::Result {
        match self.0 {
            Ok(kind) => write!(f, "ok {kind}"),
            Err(refused) => write!(f, "refused {} {}", refused.number, refused.place),
        }
    }
}

fn kind_of(sizes: Sizes, bytes: &[u8]) -> Result<u8, Refused> {
    let letter = read(sizes, bytes)?;
    Ok(letter.body.kind().number())
}

pub fn answer_to(sizes: Sizes, bytes: &[u8]) -> Answer {
    Answer(kind_of(sizes, bytes))
}
