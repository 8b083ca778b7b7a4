// A row of doors of one kind.
ghost use Rattle.std.specs.Prelude.{◌≡◌, ◌≤◌, length};

// A board of one to eight places. The first `places` doors are its doors.
// It has no model, which would be a list of doors: the law of every board, one to
// eight places, is on every value, and a list may be of any length.
#[derive(Drop)]
pub struct Row<D> {
    pub(crate) doors: [D; 8],
    pub(crate) places: u8,
    ghost eight_doors: { length doors ≡ 8 },
    ghost one_to_eight: { (1 ≤ places) × (places ≤ 8) },
}
