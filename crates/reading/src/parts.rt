// Parts of a letter's bytes.
use letters::bodies::{Body, Letter};
use terms::parties::Outcome;

// A part of a letter's bytes, and its offset in the letter.
#[derive(Clone, Copy)]
pub struct Part<'a> {
    pub bytes: &'a [u8],
    pub offset: usize,
}

// The basis of a move, with the outcome and the certificate that it is for.
#[derive(Clone, Copy)]
pub struct Grounds<'a> {
    pub outcome: Outcome,
    pub basis: Part<'a>,
    pub certificate: Part<'a>,
}

// What a letter says that was read: its certificate and its basis are parts of its bytes.
pub type ReadBody<'a> = Body<Part<'a>, Grounds<'a>>;

// A letter that was read.
pub type ReadLetter<'a> = Letter<Part<'a>, Grounds<'a>>;
