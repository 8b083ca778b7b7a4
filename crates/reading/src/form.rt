// The form of a letter: map, kind, fit, then the fields in the order of their bits.
ghost use Rattle.std.specs.Prelude.{◌≡◌, ℕ, ◌+◌, ◌-◌, ◌*◌, ◌/◌, ◌%◌, ◌^◌, ◌<◌, ◌≤◌, Bool, length};
ghost use Rattle.reading.specs.Form as Form;
ghost use Rattle.reading.specs.Parts.{told};
ghost use Rattle.reading.specs.Reads.{ReadsBody};

use crate::fields::{Reader, checked, refusal};
use crate::parts::{ReadBody, ReadLetter};
use letters::bodies::{Body, Letter};
use letters::maps::{
    ANSWER, BASIS, BASIS_BIT, CERTIFICATE, COMMON, DIGEST, MOVERS, MOVERS_BIT, NUMBER, NUMBER_BIT,
    OFFICE_SEAL, PLACE, VIEW, stands,
};
use letters::sorts::Kind;
use terms::numbers::{Change, Seat, View};
use terms::refusals::{FormCause, Refusal};
use terms::sizes::Sizes;

// What a letter says, or a refusal.
type BodyResult<'a> = Result<ReadBody<'a>, Refusal>;

// A map fits a kind if the kind's bits stand, and no others but those that may.
fn fits(kind: Kind, map: u16) -> bool
    ensures { result ≡ Form.fits kind map }
{
    match kind {
        Kind::Enrol => map == COMMON,
        Kind::Receipt => map == COMMON + PLACE,
        Kind::Order | Kind::Result => map & !NUMBER == COMMON,
        Kind::Summons => map == COMMON + NUMBER + OFFICE_SEAL,
        Kind::Vote => map == COMMON + NUMBER + ANSWER,
        Kind::Proposal => map & !(NUMBER + MOVERS) == COMMON + VIEW + CERTIFICATE,
        Kind::Assent | Kind::Confirm => map & !NUMBER == COMMON + VIEW + DIGEST,
        Kind::Move => {
            map == COMMON + VIEW || map & !NUMBER == COMMON + VIEW + BASIS + CERTIFICATE
        }
    }
}

fn fit(kind: Kind, map: u16) -> Result<(), Refusal>
    ensures { result ≡ Form.fit kind map }
{
    if fits(kind, map) {
        Ok(())
    } else {
        Err(refusal(FormCause::UnfitMap, 0))
    }
}

fn leads(sizes: Sizes, change: Change, view: View, seat: Seat) -> bool
    ensures { result ≡ Form.leads sizes change view seat }
{
    seat == sizes.leader(change, view)
}

// What is judged of a proposal at its view: the sender leads it, and it names movers unless it is 0.
fn proposal_view_fits(sizes: Sizes, change: Change, view: View, seat: Seat, moved: bool) -> bool
    ensures { result ≡ Form.proposal_view_fits sizes change view seat moved }
{
    leads(sizes, change, view, seat) && moved != (view.number() == 0)
}

impl<'a> Reader<'a> {
    fn take_enrol(&mut self, sizes: Sizes) -> BodyResult<'a>
        ensures { ReadsBody (Form.enrol_body sizes) self.old self.new result }
    {
        let sender = self.take_lock(sizes)?;
        Ok(Body::Enrol { sender })
    }

    fn take_receipt(&mut self, sizes: Sizes) -> BodyResult<'a>
        ensures { ReadsBody (Form.receipt_body sizes) self.old self.new result }
    {
        let sender = self.take_controller(sizes)?;
        let place = self.take_place(sizes)?;
        Ok(Body::Receipt { sender, place })
    }

    fn take_order(&mut self, sizes: Sizes, map: u16) -> BodyResult<'a>
        ensures { ReadsBody (Form.order_body sizes map) self.old self.new result }
    {
        self.take_office(sizes)?;
        let number = self.take_number_if(stands(map, NUMBER_BIT))?;
        Ok(Body::Order { number })
    }

    fn take_summons(&mut self, sizes: Sizes) -> BodyResult<'a>
        ensures { ReadsBody (Form.summons_body sizes) self.old self.new result }
    {
        let sender = self.take_controller(sizes)?;
        let number = self.take_number()?;
        let office_seal = self.take_seal()?;
        Ok(Body::Summons {
            sender,
            number,
            office_seal,
        })
    }

    fn take_vote(&mut self, sizes: Sizes) -> BodyResult<'a>
        ensures { ReadsBody (Form.vote_body sizes) self.old self.new result }
    {
        let sender = self.take_lock(sizes)?;
        let number = self.take_number()?;
        let answer = self.take_answer()?;
        Ok(Body::Vote {
            sender,
            number,
            answer,
        })
    }

    fn take_proposal(&mut self, sizes: Sizes, change: Change, map: u16) -> BodyResult<'a>
        ensures { ReadsBody (Form.proposal_body sizes change map) self.old self.new result }
    {
        let sender = self.take_controller(sizes)?;
        let at = self.at;
        let view = self.take_view()?;
        let moved = stands(map, MOVERS_BIT);
        checked(proposal_view_fits(sizes, change, view, sender, moved), at)?;
        let outcome = self.take_outcome_if(stands(map, NUMBER_BIT))?;
        let certificate = self.take_certificate(sizes)?;
        let movers = self.take_movers_if(moved, sizes)?;
        Ok(Body::Proposal {
            sender,
            view,
            outcome,
            certificate,
            movers,
        })
    }

    fn take_assent(&mut self, sizes: Sizes, change: Change, map: u16) -> BodyResult<'a>
        ensures { ReadsBody (Form.assent_body sizes change map) self.old self.new result }
    {
        let sender = self.take_controller(sizes)?;
        let at = self.at;
        let view = self.take_view()?;
        checked(!leads(sizes, change, view, sender), at)?;
        let outcome = self.take_outcome_if(stands(map, NUMBER_BIT))?;
        let digest = self.take_digest()?;
        Ok(Body::Assent {
            sender,
            view,
            outcome,
            digest,
        })
    }

    fn take_confirm(&mut self, sizes: Sizes, map: u16) -> BodyResult<'a>
        ensures { ReadsBody (Form.confirm_body sizes map) self.old self.new result }
    {
        let sender = self.take_controller(sizes)?;
        let view = self.take_view()?;
        let outcome = self.take_outcome_if(stands(map, NUMBER_BIT))?;
        let digest = self.take_digest()?;
        Ok(Body::Confirm {
            sender,
            view,
            outcome,
            digest,
        })
    }

    fn take_result(&mut self, sizes: Sizes, map: u16) -> BodyResult<'a>
        ensures { ReadsBody (Form.result_body sizes map) self.old self.new result }
    {
        let sender = self.take_controller(sizes)?;
        let outcome = self.take_outcome_if(stands(map, NUMBER_BIT))?;
        Ok(Body::Result { sender, outcome })
    }

    fn take_move(&mut self, sizes: Sizes, change: Change, map: u16) -> BodyResult<'a>
        ensures { ReadsBody (Form.move_body sizes change map) self.old self.new result }
    {
        let sender = self.take_controller(sizes)?;
        let at = self.at;
        let view = self.take_view()?;
        checked(view.number() != 0, at)?;
        let basis = self.take_grounds_if(
            stands(map, BASIS_BIT),
            stands(map, NUMBER_BIT),
            sizes,
            change,
            view,
        )?;
        Ok(Body::Move {
            sender,
            view,
            basis,
        })
    }

    fn take_body(&mut self, sizes: Sizes, change: Change, map: u16, kind: Kind) -> BodyResult<'a>
        ensures { ReadsBody (Form.body_field sizes change map kind) self.old self.new result }
    {
        match kind {
            Kind::Enrol => self.take_enrol(sizes),
            Kind::Receipt => self.take_receipt(sizes),
            Kind::Order => self.take_order(sizes, map),
            Kind::Summons => self.take_summons(sizes),
            Kind::Vote => self.take_vote(sizes),
            Kind::Proposal => self.take_proposal(sizes, change, map),
            Kind::Assent => self.take_assent(sizes, change, map),
            Kind::Confirm => self.take_confirm(sizes, map),
            Kind::Result => self.take_result(sizes, map),
            Kind::Move => self.take_move(sizes, change, map),
        }
    }
}

// The letter in the bytes, for a vault of these sizes.
pub fn read<'a>(sizes: Sizes, bytes: &'a [u8]) -> Result<ReadLetter<'a>, Refusal>
    ensures { told result ≡ Form.read sizes bytes.now }
{
    let mut reader = Reader { bytes, at: 0 };
    let map = reader.take_map()?;
    let kind = reader.take_kind()?;
    fit(kind, map)?;
    let change = reader.take_change()?;
    let body = reader.take_body(sizes, change, map, kind)?;
    let seal = reader.take_seal()?;
    reader.at_end()?;
    Ok(Letter { change, body, seal })
}
