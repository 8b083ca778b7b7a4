// Why bytes, a letter or a call are refused.
ghost use Rattle.std.specs.Prelude.{◌≡◌, Some};
ghost use Rattle.terms.specs.Refusals as Refusals;
ghost use Rattle.terms.specs.Refusals.{number_of, layer_of, layer_number, form_sentence, seal_sentence, rule_sentence, call_sentence, sentence_of};

use std::error::Error;
use std::fmt;

// A letter's bytes have not the form of a letter.
#[derive(Clone, Copy, Debug, PartialEq, Eq)]
pub enum FormCause {
    EndsInField,
    UnfitMap,
    OutOfRange,
    LeftOver,
}

// A seal does not stand on its statement.
#[derive(Clone, Copy, Debug, PartialEq, Eq)]
pub enum SealCause {
    Sender,
    Inner,
}

// A unit's rules turn a letter or a call down.
#[derive(Clone, Copy, Debug, PartialEq, Eq)]
pub enum RuleCause {
    OtherChange,
    OtherUnit,
    OutOfTurn,
    Repeated,
    OtherView,
    Differs,
    FalseResult,
    PlaceLeftOut,
    AgainstChoice,
    MoversMissing,
    LastView,
}

// A call cannot be carried out on what it was given.
#[derive(Clone, Copy, Debug, PartialEq, Eq)]
pub enum CallCause {
    NumberOutOfRange,
    NoSuchUnit,
    NoRoom,
    SetUp,
}

#[derive(Clone, Copy, Debug, PartialEq, Eq)]
pub enum Cause {
    Form(FormCause),
    Seal(SealCause),
    Rule(RuleCause),
    Call(CallCause),
}

// What a call passes on its way, in this order inwards: its own arguments are layer 4.
#[derive(Clone, Copy, Debug, PartialEq, Eq)]
pub enum Layer {
    Form,
    Seals,
    Rules,
    Call,
}

// A cause, and the place that it points to: an offset, a count of seals, a party or 0.
#[derive(Clone, Copy, Debug, PartialEq, Eq)]
pub struct Refusal {
    pub cause: Cause,
    pub place: usize,
}

// The numbers of layers and causes, as they are told: a method says which of them is asked, as `From` would not.
impl Layer {
    pub fn number(self) -> u8
        ensures { result ≡ layer_number self }
    {
        match self {
            Layer::Form => 1,
            Layer::Seals => 2,
            Layer::Rules => 3,
            Layer::Call => 4,
        }
    }
}

impl FormCause {
    fn sentence(self) -> &'static str
        ensures { result.now ≡ form_sentence self }
    {
        match self {
            FormCause::EndsInField => "the letter ends inside a field",
            FormCause::UnfitMap => "the letter's map does not fit its kind",
            FormCause::OutOfRange => "a field of the letter is out of range",
            FormCause::LeftOver => "bytes are left over after the letter",
        }
    }
}

impl SealCause {
    fn sentence(self) -> &'static str
        ensures { result.now ≡ seal_sentence self }
    {
        match self {
            SealCause::Sender => "the sender's seal is not accepted",
            SealCause::Inner => "a seal inside the letter is not accepted",
        }
    }
}

impl RuleCause {
    fn sentence(self) -> &'static str
        ensures { result.now ≡ rule_sentence self }
    {
        match self {
            RuleCause::OtherChange => "the letter belongs to another change",
            RuleCause::OtherUnit => "the letter is meant for another sort of unit",
            RuleCause::OutOfTurn => "the unit does not expect this now",
            RuleCause::Repeated => "the unit has this already",
            RuleCause::OtherView => "the letter belongs to another view",
            RuleCause::Differs => "the letter differs from what the unit holds",
            RuleCause::FalseResult => "the certificate has another result than the letter",
            RuleCause::PlaceLeftOut => "the certificate leaves out a registered place",
            RuleCause::AgainstChoice => "the proposal goes against the basis that must be chosen",
            RuleCause::MoversMissing => "too few controllers are known to have moved to this view",
            RuleCause::LastView => "there is no view after this one",
        }
    }
}

impl CallCause {
    fn sentence(self) -> &'static str
        ensures { result.now ≡ call_sentence self }
    {
        match self {
            CallCause::NumberOutOfRange => "the ordered number is out of range",
            CallCause::NoSuchUnit => "there is no such unit",
            CallCause::NoRoom => "the output buffer or the scratch buffer is too small",
            CallCause::SetUp => "the vault, board or seal scheme cannot be set up so",
        }
    }
}

impl Cause {
    pub fn number(self) -> u8
        ensures { result ≡ number_of self }
    {
        match self {
            Cause::Form(FormCause::EndsInField) => 1,
            Cause::Form(FormCause::UnfitMap) => 2,
            Cause::Form(FormCause::OutOfRange) => 3,
            Cause::Form(FormCause::LeftOver) => 4,
            Cause::Seal(SealCause::Sender) => 5,
            Cause::Seal(SealCause::Inner) => 6,
            Cause::Rule(RuleCause::OtherChange) => 7,
            Cause::Rule(RuleCause::OtherUnit) => 8,
            Cause::Rule(RuleCause::OutOfTurn) => 9,
            Cause::Rule(RuleCause::Repeated) => 10,
            Cause::Rule(RuleCause::OtherView) => 11,
            Cause::Rule(RuleCause::Differs) => 12,
            Cause::Rule(RuleCause::FalseResult) => 13,
            Cause::Rule(RuleCause::PlaceLeftOut) => 14,
            Cause::Rule(RuleCause::AgainstChoice) => 15,
            Cause::Rule(RuleCause::MoversMissing) => 16,
            Cause::Rule(RuleCause::LastView) => 17,
            Cause::Call(CallCause::NumberOutOfRange) => 3,
            Cause::Call(CallCause::NoSuchUnit) => 18,
            Cause::Call(CallCause::NoRoom) => 19,
            Cause::Call(CallCause::SetUp) => 20,
        }
    }

    pub fn layer(self) -> Layer
        ensures { result ≡ layer_of self }
    {
        match self {
            Cause::Form(_) => Layer::Form,
            Cause::Seal(_) => Layer::Seals,
            Cause::Rule(_) => Layer::Rules,
            Cause::Call(_) => Layer::Call,
        }
    }

    // What to tell a person.
    pub fn sentence(self) -> &'static str
        ensures { result.now ≡ sentence_of self }
    {
        match self {
            Cause::Form(cause) => cause.sentence(),
            Cause::Seal(cause) => cause.sentence(),
            Cause::Rule(cause) => cause.sentence(),
            Cause::Call(cause) => cause.sentence(),
        }
    }
}

// What is printed of a cause is its sentence.
impl fmt::Display for Cause {
    ghost output = { λ cause. Some (sentence_of cause) };

    fn fmt<W: fmt::Write>(&self, f: &mut fmt::Formatter<W>) -> fmt::Result {
        f.write_str(self.sentence())
    }
}

impl Error for Cause {}

// A buffer is too small.
pub fn no_room() -> Refusal
    ensures { result ≡ Refusals.no_room }
{
    Refusal {
        cause: Cause::Call(CallCause::NoRoom),
        place: 0,
    }
}

// Something cannot be made or set up so.
pub fn set_up() -> Refusal
    ensures { result ≡ Refusals.set_up }
{
    Refusal {
        cause: Cause::Call(CallCause::SetUp),
        place: 0,
    }
}
