// Laws of the letters' bytes, each held by the contract of a function.
#![tactic(auto)]

ghost use Rattle.roundtrip.specs.Laws.{LettersAreReadBack, OneForm, WhatIsReadIsInRange, KeptCertificateHasTheSameBytes, KeptCertificateHasTheSameDigest, StatementsTell};

// A letter within range is read back from its bytes.
#[tactic(auto, using(crate::proofs::Back::letters_are_read_back))]
pub fn letters_are_read_back() -> bool
    ensures { LettersAreReadBack }
{
    true
}

// Bytes that are read are those of the letter read, and no others.
#[tactic(auto, using(crate::proofs::Once::one_form))]
pub fn one_form() -> bool
    ensures { OneForm }
{
    true
}

// What is read is within range.
#[tactic(auto, using(crate::proofs::Once::what_is_read_is_in_range))]
pub fn what_is_read_is_in_range() -> bool
    ensures { WhatIsReadIsInRange }
{
    true
}

// The certificate kept of a part has the bytes of the part, and its digest.
#[tactic(auto, using(crate::proofs::Once::kept_certificate_has_the_same_bytes, crate::proofs::Once::kept_certificate_has_the_same_digest))]
pub fn kept_certificates_are_the_same() -> bool
    ensures bytes { KeptCertificateHasTheSameBytes }
    ensures digest { KeptCertificateHasTheSameDigest }
{
    true
}

// Statements with the same bytes are the same.
#[tactic(auto, using(crate::proofs::Tells::statements_tell))]
pub fn statements_tell() -> bool
    ensures { StatementsTell }
{
    true
}
