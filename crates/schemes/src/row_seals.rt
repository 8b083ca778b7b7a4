// Seals by rows: what a row has to say, and the one scheme over all kinds of rows.
ghost use Rattle.std.specs.Prelude.{◌≡◌, ℕ, List, true, slice_index_or};
ghost use Rattle.letters.specs.declared.sorts.Seal.{Seal};
ghost use Rattle.terms.specs.declared.parties.Party.{Party};
ghost use Rattle.schemes.specs.Kinds.{is_seal, taken, rows_of};
ghost use Rattle.schemes.specs.Rows.{row_of};

use crate::keys::RowSeals;
use crate::scheme::{Scheme, row_of};
use letters::sorts::Seal;
use terms::parties::Party;
use terms::refusals::{Refusal, set_up};

// What a party seals by.
pub(crate) trait Row: Copy {
    // The one seal of a party on a statement, by the rows of all parties.
    ghost seal_by: { List Self → Party → List ℕ → Seal };

    // The seal that a row gives on a statement.
    ghost sealed: { Self → List ℕ → Seal };

    // What stands for the row of a party past the last row.
    ghost missing: { Self };

    // A row that seals as the missing one.
    fn blank() -> Self
        ensures { (statement : List ℕ) → sealed result statement ≡ sealed missing statement };

    fn seal(&self, statement: &[u8]) -> Seal
        ensures { result ≡ sealed self.now statement.now };

    // A party seals by its own row alone.
    ghost by_own_row: { (rows : List Self) (q : Party) (statement : List ℕ) → seal_by rows q statement ≡ sealed (slice_index_or rows (row_of q) missing) statement };
}

impl<'k, R: Row> RowSeals<'k, R> {
    // Rows for all parties: controllers 0 to 15, locks 16 to 23, the office 24. Fewer are refused.
    pub fn new(rows: &'k [R]) -> Result<RowSeals<'k, R>, Refusal>
        ensures { rows_of result ≡ taken rows.now }
    {
        if rows.len() < 25 {
            return Err(set_up());
        }
        Ok(RowSeals { rows })
    }
}

impl<'k, R: Row> Scheme for RowSeals<'k, R> {
    ghost holds = { λ s q statement z. is_seal z (R.seal_by s.rows.now q statement) };

    fn check(&self, party: Party, statement: &[u8], seal: Seal) -> bool {
        seal == self.seal(party, statement)
    }

    fn seal(&self, party: Party, statement: &[u8]) -> Seal
        ensures accepted { is_seal result (R.seal_by self.now.rows.now party statement.now) ≡ true }
        ensures value { result ≡ R.seal_by self.now.rows.now party statement.now }
    {
        match self.rows.get(row_of(party)) {
            Some(row) => row.seal(statement),
            None => R::blank().seal(statement),
        }
    }
}
