// Two CSDs with the same fields.
ghost use Rattle.std.specs.Prelude.{◌≡◌};
ghost use Rattle.reg_csd.specs.Csd.{csd_values};
ghost use Rattle.card.specs.Soundness.{equal};

use reg_csd::Csd;

// `==`, with what the model says of it.
pub fn equal(a: Csd, b: Csd) -> bool
    ensures { result ≡ equal (csd_values a) (csd_values b) }
{
    a == b
}
