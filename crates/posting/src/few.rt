// Up to two things, in their order: no option, which is one at most, and no vector, which would be on the heap.
use letters::sorts::Seal;

#[derive(Clone, Copy)]
pub enum AtMostTwo<T> {
    Nothing,
    One(T),
    Two(T, T),
}

// The seals under the letters of one call; one that no letter needs is 0. They are two whatever is sent, since a
// call goes by a rule under two seals, of which the rule keeps the first.
#[derive(Clone, Copy)]
pub struct Seals {
    pub first: Seal,
    pub second: Seal,
}

// What was posted: how long each letter is, and its seal.
#[derive(Clone, Copy)]
pub struct Posted {
    pub lengths: AtMostTwo<usize>,
    pub seals: Seals,
}
