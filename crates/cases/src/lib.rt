// The worked cases, settled together.
#![tactic(auto)]

ghost use Rattle.std.specs.Prelude.{◌≡◌, true};
ghost use Rattle.cases.specs.Cases.{WorkedCases};

// Yes: all of them hold, as its contract says of the definitions themselves.
#[tactic(auto, using(crate::proofs::Settled::worked_cases))]
pub fn worked_cases_hold() -> bool
    ensures answer { result ≡ true }
    ensures cases { WorkedCases }
{
    true
}
