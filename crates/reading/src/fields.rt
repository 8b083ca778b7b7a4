// The fields of a letter, one after the other.
ghost use Rattle.std.specs.Prelude.{◌≡◌, ℕ, ◌+◌, ◌-◌, ◌*◌, ◌/◌, ◌%◌, ◌^◌, ◌<◌, ◌≤◌, length, nat_le};
ghost use Rattle.reading.specs.Fields as Fields;
ghost use Rattle.reading.specs.Reads.{Reads};

use letters::maps::{FIELDS, KIND_BIT, stands};
use letters::sorts::{Answer, Digest, Kind, Seal, SeatSet};
use terms::numbers::{Change, KeyNumber, Place, Seat, View};
use terms::parties::{Outcome, Party};
use terms::refusals::{Cause, FormCause, Refusal};
use terms::sizes::Sizes;

// The bytes of a letter, and how far they are read. The offset, and not the bytes that are left: a refusal and a
// part of the letter point to it. The sizes of the vault are passed beside it: within it each method would owe that
// they stay.
#[derive(Drop)]
pub(crate) struct Reader<'a> {
    pub(crate) bytes: &'a [u8],
    pub(crate) at: usize,
}

pub(crate) fn refusal(cause: FormCause, place: usize) -> Refusal
    ensures { result ≡ Fields.refusal cause place }
{
    Refusal {
        cause: Cause::Form(cause),
        place,
    }
}

// The value of a field that began at `at`, if it is in range.
pub(crate) fn ranged<T>(value: Option<T>, at: usize) -> Result<T, Refusal>
    ensures { result ≡ Fields.ranged value at }
{
    value.ok_or(refusal(FormCause::OutOfRange, at))
}

pub(crate) fn checked(fits: bool, at: usize) -> Result<(), Refusal>
    ensures { result ≡ Fields.checked fits at }
{
    if fits {
        Ok(())
    } else {
        Err(refusal(FormCause::OutOfRange, at))
    }
}

impl Reader<'_> {
    // The next N bytes, if the bytes reach so far.
    fn next<const N: usize>(&self) -> Option<[u8; N]>
        ensures { result ≡ Fields.next N self.now.bytes.now self.now.at }
    {
        self.bytes.get(self.at..)?.first_chunk().copied()
    }

    fn take<const N: usize>(&mut self) -> Result<[u8; N], Refusal>
        ensures { Reads (Fields.taken N) self.old self.new result }
    {
        let field = self.next().ok_or(refusal(FormCause::EndsInField, self.at))?;
        self.at += N;
        Ok(field)
    }

    pub(crate) fn take_byte(&mut self) -> Result<u8, Refusal>
        ensures { Reads Fields.byte self.old self.new result }
    {
        self.take().map(u8::from_le_bytes)
    }

    pub(crate) fn take_two(&mut self) -> Result<u16, Refusal>
        ensures { Reads Fields.two self.old self.new result }
    {
        self.take().map(u16::from_le_bytes)
    }

    fn take_four(&mut self) -> Result<u32, Refusal>
        ensures { Reads Fields.four self.old self.new result }
    {
        self.take().map(u32::from_le_bytes)
    }

    fn take_eight(&mut self) -> Result<u64, Refusal>
        ensures { Reads Fields.eight self.old self.new result }
    {
        self.take().map(u64::from_le_bytes)
    }

    fn reaches(&self, n: usize) -> bool
        ensures { result ≡ nat_le (self.now.at + n) (length self.now.bytes.now) }
    {
        self.bytes.len() >= n && self.at <= self.bytes.len() - n
    }

    // So many seals, each a field of eight bytes.
    pub(crate) fn take_seals(&mut self, count: u32) -> Result<(), Refusal>
        requires { count ≤ 16 }
        ensures { Reads (Fields.seals count) self.old self.new result }
    {
        let at = self.at;
        let whole = count as usize * 8;
        if self.reaches(whole) {
            self.at = at + whole;
            return Ok(());
        }
        if at >= self.bytes.len() {
            return Err(refusal(FormCause::EndsInField, at));
        }
        let left = self.bytes.len() - at;
        Err(refusal(FormCause::EndsInField, at + left / 8 * 8))
    }

    pub(crate) fn take_map(&mut self) -> Result<u16, Refusal>
        ensures { Reads Fields.map_field self.old self.new result }
    {
        let at = self.at;
        let map = self.take_two()?;
        if map < 1 << FIELDS && stands(map, KIND_BIT) {
            Ok(map)
        } else {
            Err(refusal(FormCause::UnfitMap, at))
        }
    }

    pub(crate) fn take_kind(&mut self) -> Result<Kind, Refusal>
        ensures { Reads Fields.kind_field self.old self.new result }
    {
        let at = self.at;
        let n = self.take_byte()?;
        Kind::try_from(n).map_err(|cause| refusal(cause, at))
    }

    pub(crate) fn take_change(&mut self) -> Result<Change, Refusal>
        ensures { Reads Fields.change_field self.old self.new result }
    {
        let at = self.at;
        let n = self.take_byte()?;
        ranged(Change::new(u32::from(n)), at)
    }

    fn take_party(&mut self, sizes: Sizes) -> Result<Option<Party>, Refusal>
        ensures { Reads (Fields.party_field sizes) self.old self.new result }
    {
        let n = self.take_byte()?;
        Ok(sizes.party(u32::from(n)))
    }

    // A sender that is a lock, a controller or the office, in three functions: each takes one party's own number out,
    // and a function of the party would be handed what to take out.
    pub(crate) fn take_lock(&mut self, sizes: Sizes) -> Result<Place, Refusal>
        ensures { Reads (Fields.lock_field sizes) self.old self.new result }
    {
        let at = self.at;
        match self.take_party(sizes)? {
            Some(Party::Lock(place)) => Ok(place),
            _ => Err(refusal(FormCause::OutOfRange, at)),
        }
    }

    pub(crate) fn take_controller(&mut self, sizes: Sizes) -> Result<Seat, Refusal>
        ensures { Reads (Fields.controller_field sizes) self.old self.new result }
    {
        let at = self.at;
        match self.take_party(sizes)? {
            Some(Party::Controller(seat)) => Ok(seat),
            _ => Err(refusal(FormCause::OutOfRange, at)),
        }
    }

    pub(crate) fn take_office(&mut self, sizes: Sizes) -> Result<(), Refusal>
        ensures { Reads (Fields.office_field sizes) self.old self.new result }
    {
        let at = self.at;
        match self.take_party(sizes)? {
            Some(Party::Office) => Ok(()),
            _ => Err(refusal(FormCause::OutOfRange, at)),
        }
    }

    pub(crate) fn take_place(&mut self, sizes: Sizes) -> Result<Place, Refusal>
        ensures { Reads (Fields.place_field sizes) self.old self.new result }
    {
        let at = self.at;
        let n = self.take_byte()?;
        ranged(sizes.place(u32::from(n)), at)
    }

    pub(crate) fn take_view(&mut self) -> Result<View, Refusal>
        ensures { Reads Fields.view_field self.old self.new result }
    {
        self.take_byte().map(View::new)
    }

    pub(crate) fn take_number(&mut self) -> Result<KeyNumber, Refusal>
        ensures { Reads Fields.number_field self.old self.new result }
    {
        let at = self.at;
        let n = self.take_four()?;
        ranged(KeyNumber::new(n), at)
    }

    pub(crate) fn take_number_if(&mut self, present: bool) -> Result<Option<KeyNumber>, Refusal>
        ensures { Reads (Fields.number_if present) self.old self.new result }
    {
        if !present {
            return Ok(None);
        }
        self.take_number().map(Some)
    }

    pub(crate) fn take_outcome_if(&mut self, present: bool) -> Result<Outcome, Refusal>
        ensures { Reads (Fields.outcome_if present) self.old self.new result }
    {
        if !present {
            return Ok(Outcome::Keep);
        }
        self.take_number().map(Outcome::Number)
    }

    pub(crate) fn take_answer(&mut self) -> Result<Answer, Refusal>
        ensures { Reads Fields.answer_field self.old self.new result }
    {
        let at = self.at;
        let n = self.take_byte()?;
        Answer::try_from(n).map_err(|cause| refusal(cause, at))
    }

    pub(crate) fn take_digest(&mut self) -> Result<Digest, Refusal>
        ensures { Reads Fields.digest_field self.old self.new result }
    {
        self.take_eight().map(Digest)
    }

    pub(crate) fn take_seal(&mut self) -> Result<Seal, Refusal>
        ensures { Reads Fields.seal_field self.old self.new result }
    {
        self.take_eight().map(Seal)
    }

    // A quorum of movers, or nobody where the field is absent.
    pub(crate) fn take_movers_if(&mut self, present: bool, sizes: Sizes) -> Result<SeatSet, Refusal>
        ensures { Reads (Fields.movers_if present sizes) self.old self.new result }
    {
        if !present {
            return Ok(SeatSet(0));
        }
        let at = self.at;
        let n = self.take_two()?;
        checked(
            u32::from(n) >> sizes.seats() == 0 && n.count_ones() == u32::from(sizes.quorum()),
            at,
        )?;
        Ok(SeatSet(n))
    }

    pub(crate) fn at_end(&self) -> Result<(), Refusal>
        ensures { result ≡ Fields.ended self.now.bytes.now self.now.at }
    {
        if self.bytes.len() <= self.at {
            Ok(())
        } else {
            Err(refusal(FormCause::LeftOver, self.at))
        }
    }
}
