// A letter as its statement tells it: certificates by their digests.
ghost use Rattle.std.specs.Prelude.{◌≡◌};
ghost use Rattle.letters.specs.Bodies.{brief_of, in_brief};

use crate::certificates::certificate_digest;
use letters::bodies::{Body, Brief, WholeBody};
use letters::certificates::Basis;
use letters::sorts::Digest;

fn brief_of(basis: &Basis) -> Brief
    ensures { result ≡ brief_of basis.now }
{
    Brief {
        view: basis.view,
        outcome: basis.outcome,
        digest: certificate_digest(&basis.certificate),
    }
}

// The same letter, with a digest for its certificate and a brief for its basis.
pub fn in_brief(body: &WholeBody) -> Body<Digest, Brief>
    ensures { result ≡ in_brief body.now }
{
    body.retold(
        |certificate| certificate_digest(&certificate),
        |basis| brief_of(&basis),
    )
}
