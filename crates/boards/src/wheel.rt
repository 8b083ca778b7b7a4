// One wheel, and how far it is to turn.
ghost use Rattle.std.specs.Prelude.{◌≤◌, pos, negsuc, ◌≤ℤ◌};

// Where a wheel stands, 0 to 99. After 99 comes 0.
#[derive(Clone, Copy)]
pub(crate) struct Wheel {
    pub(crate) at: u8,
    ghost two_digits: { at ≤ 99 },
}

// How far a wheel is to turn, the shorter way: 50 back to 49 forth.
#[derive(Clone, Copy)]
pub(crate) struct Turn {
    pub(crate) by: i8,
    ghost half_way_round: { (negsuc 49 ≤ℤ by) × (by ≤ℤ pos 49) },
}
