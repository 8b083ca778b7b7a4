// The sizes of a vault.
ghost use Rattle.std.specs.Prelude.{◌≤◌};

// How many faulty controllers a vault bears, 1 to 5, and how many locks it has, 1 to 8.
#[derive(Clone, Copy, Debug, PartialEq, Eq)]
pub struct Sizes {
    pub(crate) faults: u8,
    pub(crate) locks: u8,
    ghost faults_range: { (1 ≤ faults) × (faults ≤ 5) },
    ghost locks_range: { (1 ≤ locks) × (locks ≤ 8) },
}
