// What holds after every list of calls on a vault, each law held by the contract of a function.
#![tactic(auto)]

ghost use Rattle.agreement.specs.Law.{HonestLocksNeverPartLaw, HonestControllersHoldOneResult, SupportedNumbersStandLaw};

// Two honest locks that have ended both kept, or both changed to the same number; and if one has
// changed, every honest lock to which a quorum of receipts was served voted ready for that number,
// and an honest office ordered it.
pub fn honest_locks_never_part() -> bool
    ensures { HonestLocksNeverPartLaw }
{
    true
}

// Two honest controllers that hold results hold the same one.
pub fn honest_controllers_hold_one_result() -> bool
    ensures { HonestControllersHoldOneResult }
{
    true
}

// A number that a quorum supports was ordered, if the office is honest, and every honest lock to
// which a quorum of receipts was served voted ready for it.
pub fn supported_numbers_stand() -> bool
    ensures { SupportedNumbersStandLaw }
{
    true
}
