// What the owner of a lock may do with it.
ghost use Rattle.std.specs.Prelude.{◌≡◌};
ghost use Rattle.reading.specs.Parts.{shown};
ghost use Rattle.terms.specs.Parties.{party_number};
ghost use Rattle.letters.specs.Senders.{sender_of};
ghost use Rattle.posting.specs.Calls as Calls;
ghost use Rattle.locks.specs.Rules as Rules;
ghost use Rattle.locks.specs.Letters as Letters;
ghost use Rattle.locks.specs.Fresh.{fresh_lock};

use crate::lock::{Lock, Standing};
use boards::board::Board;
use posting::replies::CallResult;
use schemes::scheme::Scheme;
use seals::opening::Opened;
use terms::numbers::{Change, Place};
use terms::sizes::Sizes;

impl Lock {
    // A new lock at its place.
    pub fn new(place: Place) -> Lock
        ensures { result ≡ fresh_lock place }
    {
        Lock {
            place,
            standing: Standing::New,
            receipts: [None; 16],
            results: [None; 16],
        }
    }

    pub fn standing(&self) -> Standing
        ensures { result ≡ self.now.standing }
    {
        self.standing
    }

    // Takes a letter that was opened: serves it, or refuses it.
    pub fn receive<S: Scheme, B: Board>(
        &mut self,
        sizes: Sizes,
        change: Change,
        scheme: &S,
        board: &mut B,
        opened: Opened,
        scratch: &mut [u8],
        out: &mut [u8],
    ) -> CallResult
        ensures call { Calls.Goes (S.Scheme.holds scheme.now) change self.old out.old scratch.old (λ _. Calls.pointed (party_number (sender_of (shown opened.entry.letter).body)) (Rules.replied (Letters.letter_rule sizes change self.old (B.Board.meaning board.old) (shown opened.entry.letter)))) (Calls.went result self.new out.new scratch.new) }
        ensures board { B.Board.meaning board.new ≡ Rules.board_called (B.Board.meaning board.old) self.old.place out.old scratch.old (Letters.letter_rule sizes change self.old (B.Board.meaning board.old) (shown opened.entry.letter)) }
        ensures room_suffices { Calls.RoomSuffices result out.old scratch.old }
    {
        let letter = opened.spend();
        self.serve(sizes, change, scheme, board, letter, scratch, out)
    }
}
