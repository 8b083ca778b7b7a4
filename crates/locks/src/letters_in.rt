// A letter handed to a lock.
ghost use Rattle.std.specs.Prelude.{◌≡◌};
ghost use Rattle.terms.specs.Parties.{party_number};
ghost use Rattle.letters.specs.Senders.{sender_of};
ghost use Rattle.posting.specs.Calls as Calls;
ghost use Rattle.locks.specs.Letters as Letters;
ghost use Rattle.locks.specs.Rules as Rules;

use crate::lock::Lock;
use boards::board::Board;
use letters::bodies::Body;
use letters::senders::sender_number;
use posting::finish::{answer, finish};
use posting::replies::{CallResult, Reply};
use posting::room::require_room;
use reading::parts::{ReadBody, ReadLetter};
use schemes::scheme::Scheme;
use terms::numbers::Change;
use terms::refusals::RuleCause;
use terms::sizes::Sizes;

impl Lock {
    fn take_body<B: Board>(&mut self, sizes: Sizes, board: &mut B, body: ReadBody) -> Reply
        ensures follows { Rules.Follows self.old (Letters.body_rule sizes self.old (B.Board.meaning board.old) body.entry) result self.new }
        ensures board { B.Board.meaning board.new ≡ Rules.board_after (B.Board.meaning board.old) self.old.place (Letters.body_rule sizes self.old (B.Board.meaning board.old) body.entry) }
    {
        match body {
            Body::Receipt { sender, place } => self.take_receipt(sizes, sender, place),
            Body::Summons {
                sender: _,
                number,
                office_seal: _,
            } => self.take_summons(board, number),
            Body::Result { sender, outcome } => self.take_result(sizes, board, sender, outcome),
            _ => Err(RuleCause::OtherUnit),
        }
    }

    // 7 for a letter of another change, before its kind is looked at.
    fn take_letter<B: Board>(
        &mut self,
        sizes: Sizes,
        change: Change,
        board: &mut B,
        letter: ReadLetter,
    ) -> Reply
        ensures follows { Rules.Follows self.old (Letters.letter_rule sizes change self.old (B.Board.meaning board.old) letter.entry) result self.new }
        ensures board { B.Board.meaning board.new ≡ Rules.board_after (B.Board.meaning board.old) self.old.place (Letters.letter_rule sizes change self.old (B.Board.meaning board.old) letter.entry) }
    {
        if letter.change != change {
            return Err(RuleCause::OtherChange);
        }
        self.take_body(sizes, board, letter.body)
    }

    // Serves a letter that was opened, or refuses it.
    pub(crate) fn serve<S: Scheme, B: Board>(
        &mut self,
        sizes: Sizes,
        change: Change,
        scheme: &S,
        board: &mut B,
        letter: ReadLetter,
        scratch: &mut [u8],
        out: &mut [u8],
    ) -> CallResult
        ensures call { Calls.Goes (S.Scheme.holds scheme.now) change self.old out.old scratch.old (λ _. Calls.pointed (party_number (sender_of letter.entry.body)) (Rules.replied (Letters.letter_rule sizes change self.old (B.Board.meaning board.old) letter.entry))) (Calls.went result self.new out.new scratch.new) }
        ensures board { B.Board.meaning board.new ≡ Rules.board_called (B.Board.meaning board.old) self.old.place out.old scratch.old (Letters.letter_rule sizes change self.old (B.Board.meaning board.old) letter.entry) }
        ensures room_suffices { Calls.RoomSuffices result out.old scratch.old }
    {
        require_room(out.len(), scratch.len())?;
        let sender = sender_number(&letter.body);
        let reply = self.take_letter(sizes, change, board, letter);
        answer(finish(scheme, change, reply, sender, scratch, out))
    }
}
