// The certificate and the basis: checked through, and handed on as parts of the bytes.
ghost use Rattle.std.specs.Prelude.{◌≡◌, ℕ, ◌+◌, ◌-◌, ◌*◌, ◌/◌, ◌%◌, ◌^◌, ◌<◌, ◌≤◌, length};
ghost use Rattle.reading.specs.Parts.{between, span};
ghost use Rattle.reading.specs.Spans as Spans;
ghost use Rattle.reading.specs.Reads.{Reads, ReadsSpan, ReadsGrounds};

use crate::fields::{Reader, checked};
use crate::parts::{Grounds, Part};
use letters::maps::stands;
use terms::numbers::{Change, View};
use terms::parties::Outcome;
use terms::refusals::Refusal;
use terms::sizes::Sizes;

impl<'a> Reader<'a> {
    // A map of places, all of them below L.
    fn take_enrolled(&mut self, sizes: Sizes) -> Result<u8, Refusal>
        ensures { Reads (Spans.enrolled_field sizes) self.old self.new result }
    {
        let at = self.at;
        let n = self.take_byte()?;
        checked(u32::from(n) >> sizes.locks() == 0, at)?;
        Ok(n)
    }

    // A map of places, all of which stand in the map `of`.
    fn take_places(&mut self, of: u8) -> Result<u8, Refusal>
        ensures { Reads (Spans.places_field of) self.old self.new result }
    {
        let at = self.at;
        let n = self.take_byte()?;
        checked(n & of == n, at)?;
        Ok(n)
    }

    // Whether the order has a number; a cancel has no votes.
    fn take_flag(&mut self, voted: u8) -> Result<bool, Refusal>
        ensures { Reads (Spans.flag_field voted) self.old self.new result }
    {
        let at = self.at;
        let n = self.take_byte()?;
        checked(n == 1 || (n == 0 && voted == 0), at)?;
        Ok(n == 1)
    }

    fn walk_certificate(&mut self, sizes: Sizes) -> Result<(), Refusal>
        ensures { Reads (Spans.certificate_fields sizes) self.old self.new result }
    {
        let enrolled = self.take_enrolled(sizes)?;
        let voted = self.take_places(enrolled)?;
        self.take_places(voted)?;
        let numbered = self.take_flag(voted)?;
        self.take_number_if(numbered)?;
        self.take_seal()?;
        self.take_seals(enrolled.count_ones())?;
        self.take_seals(voted.count_ones())
    }

    // The view of a basis lies below the view of its letter.
    fn take_basis_view(&mut self, view: View) -> Result<View, Refusal>
        ensures { Reads (Spans.basis_view_field view) self.old self.new result }
    {
        let at = self.at;
        let basis_view = self.take_view()?;
        checked(basis_view < view, at)?;
        Ok(basis_view)
    }

    // Exactly 2f seats, none at N or above, the leader of the basis' view not among them.
    fn take_assenters(&mut self, sizes: Sizes, change: Change, view: View) -> Result<u16, Refusal>
        ensures { Reads (Spans.assenters_field sizes change view) self.old self.new result }
    {
        let at = self.at;
        let n = self.take_two()?;
        let leader = sizes.leader(change, view).number();
        let fits = u32::from(n) >> sizes.seats() == 0
            && n.count_ones() == 2 * u32::from(sizes.faults())
            && !stands(n, leader);
        checked(fits, at)?;
        Ok(n)
    }

    fn walk_basis(&mut self, sizes: Sizes, change: Change, view: View) -> Result<(), Refusal>
        ensures { Reads (Spans.basis_fields sizes change view) self.old self.new result }
    {
        let basis_view = self.take_basis_view(view)?;
        self.take_assenters(sizes, change, basis_view)?;
        self.take_seal()?;
        self.take_seals(2 * u32::from(sizes.faults()))
    }

    // What was read since an offset.
    fn part_from(&self, offset: usize) -> Part<'a>
        requires { (offset ≤ self.now.at) × (self.now.at ≤ length self.now.bytes.now) }
        ensures { span result ≡ between self.now.bytes.now offset self.now.at }
    {
        Part {
            bytes: &self.bytes[offset..self.at],
            offset,
        }
    }

    // This and the basis differ in what is walked through: passed in, it would lend the reader.
    pub(crate) fn take_certificate(&mut self, sizes: Sizes) -> Result<Part<'a>, Refusal>
        ensures { ReadsSpan (Spans.certificate_field sizes) self.old self.new result }
    {
        let offset = self.at;
        self.walk_certificate(sizes)?;
        Ok(self.part_from(offset))
    }

    fn take_basis(&mut self, sizes: Sizes, change: Change, view: View) -> Result<Part<'a>, Refusal>
        ensures { ReadsSpan (Spans.basis_field sizes change view) self.old self.new result }
    {
        let offset = self.at;
        self.walk_basis(sizes, change, view)?;
        Ok(self.part_from(offset))
    }

    // The outcome, the basis and its certificate, or nothing of them.
    pub(crate) fn take_grounds_if(
        &mut self,
        present: bool,
        numbered: bool,
        sizes: Sizes,
        change: Change,
        view: View,
    ) -> Result<Option<Grounds<'a>>, Refusal>
        ensures { ReadsGrounds (Spans.grounds_if present numbered sizes change view) self.old self.new result }
    {
        if !present {
            return Ok(None);
        }
        let outcome = self.take_outcome_if(numbered)?;
        let basis = self.take_basis(sizes, change, view)?;
        let certificate = self.take_certificate(sizes)?;
        Ok(Some(Grounds {
            outcome,
            basis,
            certificate,
        }))
    }
}
