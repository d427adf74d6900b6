use host::{Refusal, Rule};
use std::fmt;

/// The lowest place at which a table breaks a rule, and the lowest rule that it breaks there.
#[derive(Clone, Copy, Debug, PartialEq, Eq)]
pub struct Breach {
    pub place: u8,
    pub rule: Rule,
}

impl fmt::Display for Breach {
    ghost use Rattle.std.specs.Prelude.{Some};
    ghost use Rattle.table.specs.Breaches.{breach_words};

    ghost output = { λ breach. Some (breach_words breach) };

    fn fmt<W: fmt::Write>(&self, f: &mut fmt::Formatter<W>) -> fmt::Result {
        let Breach { place, rule } = *self;
        let number = rule.number();
        write!(f, "place {place} breaks rule {number}: {rule}")
    }
}

impl From<Breach> for Refusal {
    ghost use Rattle.std.specs.Prelude.{◌≡◌};
    ghost use Rattle.host.specs.declared.refusals.Refusal.TheVariants.{Unlawful};

    ghost from_gives = { λ breach refusal. refusal ≡ Unlawful breach.place breach.rule };

    fn from(breach: Breach) -> Refusal {
        let Breach { place, rule } = breach;
        Refusal::Unlawful { place, rule }
    }
}
