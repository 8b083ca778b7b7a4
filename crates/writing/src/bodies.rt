// What a letter says, as bytes: all of it but its seal.
ghost use Rattle.std.specs.Prelude.{◌≡◌, ◌+◌, ◌≤◌, [], ◌++◌, length};
ghost use Rattle.letters.specs.Statements.{outcome_number};
ghost use Rattle.letters.specs.Layout as Layout;

use crate::certificates::{put_certificate, put_number};
use crate::drafts::Draft;
use crate::maps::map_of;
use letters::bodies::{Body, WholeBody};
use letters::certificates::{Basis, Certificate};
use letters::maps::{
    ANSWER, BASIS, CERTIFICATE, COMMON, DIGEST, MOVERS, NUMBER, OFFICE_SEAL, PLACE, VIEW,
};
use letters::sorts::{Answer, Digest, Kind, Seal, SeatSet};
use letters::statements::outcome_number;
use terms::numbers::{Change, KeyNumber, Place, Seat, View};
use terms::parties::{Outcome, Party};

// No letter is longer, even with a seal in every row.
pub(crate) type LetterDraft = Draft<301>;

fn number_bit(number: Option<KeyNumber>) -> u16
    ensures bit { result ≡ Layout.number_bit number }
    ensures small { result ≤ 32 }
{
    if number.is_some() { NUMBER } else { 0 }
}

fn movers_bit(view: View) -> u16
    ensures bit { result ≡ Layout.movers_bit view }
    ensures small { result ≤ 2048 }
{
    if view.number() == 0 { 0 } else { MOVERS }
}

fn move_map(basis: &Option<Basis>) -> u16
    ensures { result ≡ Layout.move_map basis.now }
{
    match basis {
        None => COMMON + VIEW,
        Some(basis) => {
            let number = number_bit(outcome_number(basis.outcome));
            COMMON + VIEW + number + BASIS + CERTIFICATE
        }
    }
}

// What a body begins with; its other parts come after.
fn put_head(draft: &mut LetterDraft, map: u16, kind: Kind, change: Change, sender: Party)
    requires { draft.old ≡ [] }
    ensures { draft.new ≡ Layout.head map kind change sender }
{
    let [low, high] = map.to_le_bytes();
    let kind = kind.number();
    let change = (change.number() % 256) as u8;
    let sender = (sender.number() % 256) as u8;
    draft.extend(&[low, high, kind, change, sender]);
}

fn put_receipt(draft: &mut LetterDraft, change: Change, sender: Seat, place: Place)
    requires { draft.old ≡ [] }
    ensures body { draft.new ≡ Layout.body_bytes change (Body.Receipt sender place) }
    ensures within { length draft.new ≤ 293 }
{
    let sender = Party::Controller(sender);
    put_head(draft, COMMON + PLACE, Kind::Receipt, change, sender);
    draft.extend(&[place.number()]);
}

fn put_order(draft: &mut LetterDraft, change: Change, number: Option<KeyNumber>)
    requires { draft.old ≡ [] }
    ensures body { draft.new ≡ Layout.body_bytes change (Body.Order number) }
    ensures within { length draft.new ≤ 293 }
{
    let map = COMMON + number_bit(number);
    put_head(draft, map, Kind::Order, change, Party::Office);
    put_number(draft, number);
}

fn put_summons(
    draft: &mut LetterDraft,
    change: Change,
    sender: Seat,
    number: KeyNumber,
    office_seal: Seal,
)
    requires { draft.old ≡ [] }
    ensures body { draft.new ≡ Layout.body_bytes change (Body.Summons sender number office_seal) }
    ensures within { length draft.new ≤ 293 }
{
    let map = COMMON + NUMBER + OFFICE_SEAL;
    put_head(draft, map, Kind::Summons, change, Party::Controller(sender));
    draft.extend(&number.value().to_le_bytes());
    draft.extend(&office_seal.0.to_le_bytes());
}

fn put_vote(
    draft: &mut LetterDraft,
    change: Change,
    sender: Place,
    number: KeyNumber,
    answer: Answer,
)
    requires { draft.old ≡ [] }
    ensures body { draft.new ≡ Layout.body_bytes change (Body.Vote sender number answer) }
    ensures within { length draft.new ≤ 293 }
{
    let map = COMMON + NUMBER + ANSWER;
    put_head(draft, map, Kind::Vote, change, Party::Lock(sender));
    draft.extend(&number.value().to_le_bytes());
    draft.extend(&[answer.number()]);
}

// The seats that moved to the view; nobody moves to view 0.
fn put_movers<const N: usize>(draft: &mut Draft<N>, view: View, movers: SeatSet)
    requires { length draft.old + 2 ≤ N }
    ensures joined { draft.new ≡ draft.old ++ Layout.movers_bytes view movers }
    ensures within { length draft.new ≤ length draft.old + 2 }
{
    if view.number() != 0 {
        draft.extend(&movers.0.to_le_bytes());
    }
}

fn put_proposal(
    draft: &mut LetterDraft,
    change: Change,
    sender: Seat,
    view: View,
    outcome: Outcome,
    certificate: &Certificate,
    movers: SeatSet,
)
    requires { draft.old ≡ [] }
    ensures body { draft.new ≡ Layout.body_bytes change (Body.Proposal sender view outcome certificate.now movers) }
    ensures within { length draft.new ≤ 293 }
{
    let number = outcome_number(outcome);
    let map = COMMON + VIEW + number_bit(number) + CERTIFICATE + movers_bit(view);
    put_head(
        draft,
        map,
        Kind::Proposal,
        change,
        Party::Controller(sender),
    );
    draft.extend(&[view.number()]);
    put_number(draft, number);
    put_certificate(draft, certificate);
    put_movers(draft, view, movers);
}

// An assent or a confirm.
fn put_viewed(
    draft: &mut LetterDraft,
    kind: Kind,
    change: Change,
    sender: Seat,
    view: View,
    outcome: Outcome,
    digest: Digest,
)
    requires { draft.old ≡ [] }
    ensures body { draft.new ≡ Layout.viewed_bytes kind change (Party.Controller sender) view (outcome_number outcome) digest.0 }
    ensures within { length draft.new ≤ 293 }
{
    let number = outcome_number(outcome);
    let map = COMMON + VIEW + number_bit(number) + DIGEST;
    put_head(draft, map, kind, change, Party::Controller(sender));
    draft.extend(&[view.number()]);
    put_number(draft, number);
    draft.extend(&digest.0.to_le_bytes());
}

fn put_result(draft: &mut LetterDraft, change: Change, sender: Seat, outcome: Outcome)
    requires { draft.old ≡ [] }
    ensures body { draft.new ≡ Layout.body_bytes change (Body.Result sender outcome) }
    ensures within { length draft.new ≤ 293 }
{
    let number = outcome_number(outcome);
    let map = COMMON + number_bit(number);
    put_head(draft, map, Kind::Result, change, Party::Controller(sender));
    put_number(draft, number);
}

// A basis: 11 bytes and 16 seals at most.
fn put_basis<const N: usize>(draft: &mut Draft<N>, basis: &Basis)
    requires { length draft.old + 139 ≤ N }
    ensures joined { draft.new ≡ draft.old ++ Layout.basis_bytes basis.now }
    ensures within { length draft.new ≤ length draft.old + 139 }
{
    draft.extend(&[basis.view.number()]);
    draft.extend(&map_of(&basis.assents, |row| row.is_some()).to_le_bytes());
    draft.extend(&basis.leader_seal.0.to_le_bytes());
    draft.extend_rows(&basis.assents, |row| *row);
}

// What a move stands on: the number, the basis and its certificate, or nothing.
fn put_grounds<const N: usize>(draft: &mut Draft<N>, basis: &Option<Basis>)
    requires { length draft.old + 287 ≤ N }
    ensures joined { draft.new ≡ draft.old ++ Layout.grounds_bytes basis.now }
    ensures within { length draft.new ≤ length draft.old + 287 }
{
    if let Some(basis) = basis {
        put_number(draft, outcome_number(basis.outcome));
        put_basis(draft, basis);
        put_certificate(draft, &basis.certificate);
    }
}

fn put_move(
    draft: &mut LetterDraft,
    change: Change,
    sender: Seat,
    view: View,
    basis: &Option<Basis>,
)
    requires { draft.old ≡ [] }
    ensures body { draft.new ≡ Layout.body_bytes change (Body.Move sender view basis.now) }
    ensures within { length draft.new ≤ 293 }
{
    let sender = Party::Controller(sender);
    put_head(draft, move_map(basis), Kind::Move, change, sender);
    draft.extend(&[view.number()]);
    put_grounds(draft, basis);
}

pub(crate) fn put_body(draft: &mut LetterDraft, change: Change, body: &WholeBody)
    requires { draft.old ≡ [] }
    ensures body { draft.new ≡ Layout.body_bytes change body.now }
    ensures within { length draft.new ≤ 293 }
{
    match *body {
        Body::Enrol { sender } => put_head(draft, COMMON, Kind::Enrol, change, Party::Lock(sender)),
        Body::Receipt { sender, place } => put_receipt(draft, change, sender, place),
        Body::Order { number } => put_order(draft, change, number),
        Body::Summons {
            sender,
            number,
            office_seal,
        } => put_summons(draft, change, sender, number, office_seal),
        Body::Vote {
            sender,
            number,
            answer,
        } => put_vote(draft, change, sender, number, answer),
        Body::Proposal {
            sender,
            view,
            outcome,
            ref certificate,
            movers,
        } => { put_proposal(draft, change, sender, view, outcome, certificate, movers) }
        Body::Assent {
            sender,
            view,
            outcome,
            digest,
        } => { put_viewed(draft, Kind::Assent, change, sender, view, outcome, digest) }
        Body::Confirm {
            sender,
            view,
            outcome,
            digest,
        } => { put_viewed(draft, Kind::Confirm, change, sender, view, outcome, digest) }
        Body::Result { sender, outcome } => put_result(draft, change, sender, outcome),
        Body::Move {
            sender,
            view,
            ref basis,
        } => put_move(draft, change, sender, view, basis),
    }
}
