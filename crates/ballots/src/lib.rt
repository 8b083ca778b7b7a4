// Ballots of seats: one count for every kind of ballot.
#![tactic(auto)]

ghost use Rattle.std.specs.Prelude.{◌≡◌, ℕ, ◌+◌, ◌<◌, ◌≤◌, Bool, true, length, None, nat_lt, slice_index_or, slice_set};
ghost use Rattle.ballots.specs.Counts.{votes_for, count_agree};
ghost use Rattle.ballots.specs.Kinds.{always_agree, same_outcome, same_pair};
ghost use Rattle.std.proofs.Common.{rules};

use letters::sorts::Digest;
use terms::parties::Outcome;

// A ballot says when another agrees with it, which is an equivalence.
pub trait Ballot {
    ghost agree: { Self → Self → Bool };

    fn agrees(&self, other: &Self) -> bool
        ensures { result ≡ agree self.now other.now };

    ghost agrees_with_itself: { (x : Self) → agree x x ≡ true };

    ghost agrees_both_ways: { (x y : Self) → agree x y ≡ agree y x };

    ghost agrees_across: { (x y z : Self) → agree x y ≡ true → agree y z ≡ true → agree x z ≡ true };
}

// A ballot is there and agrees with one.
fn votes_for<B: Ballot>(slot: &Option<B>, with: &B) -> bool
    ensures { result ≡ votes_for B.agree with.now slot.now }
{
    slot.as_ref().is_some_and(|ballot| ballot.agrees(with))
}

// How many of the ballots agree with one.
pub fn tally<B: Ballot>(ballots: &[Option<B>], with: &B) -> usize
    ensures { result ≡ count_agree B.agree with.now ballots.now }
{
    ballots.iter().filter(|slot| votes_for(slot, with)).count()
}

// Whether two ballots have, together, more in agreement than there are seats; then they agree.
pub fn exceed_seats<B: Ballot>(ballots: &[Option<B>], a: &B, b: &B) -> bool
    ensures value { result ≡ nat_lt (length ballots.now) (count_agree B.agree a.now ballots.now + count_agree B.agree b.now ballots.now) }
    ensures together_they_agree { result ≡ true → B.agree a.now b.now ≡ true }
{
    let seats = ballots.len();
    let first = tally(ballots, a);
    let second = tally(ballots, b);
    first > seats || second > seats - first
}

// A receipt says nothing but that it was given.
#[derive(Clone, Copy)]
pub struct Receipted;

impl Ballot for Receipted {
    ghost agree = { always_agree };

    ghost agrees_with_itself = { Prim.search rules };

    ghost agrees_both_ways = { Prim.search rules };

    ghost agrees_across = { Prim.search rules };

    fn agrees(&self, _other: &Receipted) -> bool {
        true
    }
}

impl Ballot for Outcome {
    ghost agree = { same_outcome };

    ghost agrees_with_itself = { Prim.search rules };

    ghost agrees_both_ways = { Prim.search rules };

    ghost agrees_across = { Prim.search rules };

    fn agrees(&self, other: &Outcome) -> bool {
        self == other
    }
}

// An outcome with the digest of its certificate: what an assent and a confirm stand for.
#[derive(Clone, Copy, PartialEq, Eq)]
pub struct Pair {
    pub outcome: Outcome,
    pub digest: Digest,
}

impl Ballot for Pair {
    ghost agree = { same_pair };

    ghost agrees_with_itself = { Prim.search rules };

    ghost agrees_both_ways = { Prim.search rules };

    ghost agrees_across = { Prim.search rules };

    fn agrees(&self, other: &Pair) -> bool {
        self == other
    }
}

// The entry of a row; past the last row there is none.
pub fn entry<T: Copy + Drop>(rows: &[Option<T>], at: u8) -> Option<T>
    ensures { result ≡ slice_index_or rows.now at None }
{
    rows.get(usize::from(at)).copied().flatten()
}

// Puts an entry into its row; past the last row nothing changes.
pub fn put<T: Copy + Drop>(rows: &mut [Option<T>], at: u8, value: Option<T>)
    ensures { rows.new ≡ slice_set rows.old at value }
{
    if usize::from(at) < rows.len() {
        rows[usize::from(at)] = value;
    }
}
