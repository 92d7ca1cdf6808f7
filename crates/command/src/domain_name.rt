// The name of a domain that a program may be certified in.
ghost use Rattle.std.specs.Prelude.{◌≡◌};
ghost use Rattle.command.specs.Words.{domain_of};

use crate::names::look_up;

#[derive(Clone, Copy)]
pub enum DomainName {
    Intervals,
    Congruences,
    IntervalsAndCongruences,
    CongruencesAndIntervals,
    TwiceIntervals,
}

// A product's sides are joined by a star.
const DOMAINS: [(&[u8], DomainName); 5] = [
    (b"intervals", DomainName::Intervals),
    (b"congruences", DomainName::Congruences),
    (
        b"intervals*congruences",
        DomainName::IntervalsAndCongruences,
    ),
    (
        b"congruences*intervals",
        DomainName::CongruencesAndIntervals,
    ),
    (b"intervals*intervals", DomainName::TwiceIntervals),
];

pub(crate) fn domain_of(text: &[u8]) -> Option<DomainName>
    ensures { result ≡ domain_of text.now }
{
    look_up(&DOMAINS, text)
}
