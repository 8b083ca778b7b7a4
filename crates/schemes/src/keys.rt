// The rows that the caller lends to a scheme.
ghost use Rattle.std.specs.Prelude.{◌≤◌, length};

// A row for each party.
#[derive(Clone, Copy)]
pub struct RowSeals<'k, R> {
    pub(crate) rows: &'k [R],
}

// A key of sixteen bytes for each party.
pub type DigestSeals<'k> = RowSeals<'k, [u8; 16]>;

// A sheet of 25 words for each party.
pub type SheetSeals<'k> = RowSeals<'k, [u64; 25]>;
