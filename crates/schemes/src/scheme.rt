// What a seal scheme is.
ghost use Rattle.std.specs.Prelude.{◌≡◌, ℕ, Bool, true, List};
ghost use Rattle.letters.specs.declared.sorts.Seal.{Seal};
ghost use Rattle.terms.specs.declared.parties.Party.{Party};
ghost use Rattle.schemes.specs.Rows.{row_of};

use letters::sorts::Seal;
use terms::parties::Party;

// A scheme means a fixed relation of party, statement and seal.
pub trait Scheme {
    ghost holds: { Self → Party → List ℕ → Seal → Bool };

    // Whether the seal is the party's on the statement.
    fn check(&self, party: Party, statement: &[u8], seal: Seal) -> bool
        ensures { result ≡ holds self.now party statement.now seal };

    // A seal of the party on the statement.
    fn seal(&self, party: Party, statement: &[u8]) -> Seal
        ensures { holds self.now party statement.now result ≡ true };
}

// The row of keys or words that belongs to a party.
pub(crate) fn row_of(party: Party) -> usize
    ensures { result ≡ row_of party }
{
    match party {
        Party::Controller(seat) => seat.number() as usize,
        Party::Lock(place) => 16 + place.number() as usize,
        Party::Office => 24,
    }
}
