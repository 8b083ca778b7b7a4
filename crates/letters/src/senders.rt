// Who sends a letter.
ghost use Rattle.std.specs.Prelude.{◌≡◌};
ghost use Rattle.terms.specs.Parties.{party_number};
ghost use Rattle.letters.specs.Senders.{sender_of};

use crate::bodies::Body;
use terms::parties::Party;

// The party whose letter it is, whatever account it gives of certificate and basis.
pub fn sender_of<C, B>(body: &Body<C, B>) -> Party
    ensures { result ≡ sender_of body.now }
{
    match body {
        Body::Enrol { sender } | Body::Vote { sender, .. } => Party::Lock(*sender),
        Body::Order { .. } => Party::Office,
        Body::Summons { sender, .. } => Party::Controller(*sender),
        Body::Receipt { sender, .. }
        | Body::Proposal { sender, .. }
        | Body::Assent { sender, .. }
        | Body::Confirm { sender, .. }
        | Body::Result { sender, .. }
        | Body::Move { sender, .. } => Party::Controller(*sender),
    }
}

// The number of that party, as a refusal points to it.
pub fn sender_number<C, B>(body: &Body<C, B>) -> usize
    ensures { result ≡ party_number (sender_of body.now) }
{
    sender_of(body).number() as usize
}
