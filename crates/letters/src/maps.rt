// Maps: a bit for each field that a letter has, for each place or for each seat.
ghost use Rattle.std.specs.Prelude.{◌≡◌};
ghost use Rattle.letters.specs.Sorts.{stands};

// The fields that every letter has: kind, change, sender and seal.
pub const COMMON: u16 = (1 << 0) + (1 << 1) + (1 << 2) + (1 << 12);

// How many fields there are, and so many bits.
pub const FIELDS: u8 = 13;

pub const KIND_BIT: u8 = 0;

// The number of a field's bit, where a letter of the kind may have the field or not.
pub const NUMBER_BIT: u8 = 5;

pub const BASIS_BIT: u8 = 9;

pub const MOVERS_BIT: u8 = 11;

pub const PLACE: u16 = 1 << 3;

pub const VIEW: u16 = 1 << 4;

pub const NUMBER: u16 = 1 << NUMBER_BIT;

pub const ANSWER: u16 = 1 << 6;

pub const DIGEST: u16 = 1 << 7;

pub const OFFICE_SEAL: u16 = 1 << 8;

pub const BASIS: u16 = 1 << BASIS_BIT;

pub const CERTIFICATE: u16 = 1 << 10;

pub const MOVERS: u16 = 1 << MOVERS_BIT;

// Whether a bit of a map stands; past the last bit none does.
#[tactic(auto, using(crate::proofs::Bits::none_past))]
pub fn stands(map: u16, bit: u8) -> bool
    ensures { result ≡ stands map bit }
{
    bit < 16 && (map >> bit) % 2 == 1
}
