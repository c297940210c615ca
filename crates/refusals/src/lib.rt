// Refusals: what is refused, with its number. A test answers Ok or a refusal, a call that writes how many it wrote, bits or octets, or why it wrote nothing.
#![tactic(auto)]

ghost use Rattle.std.specs.Prelude.{◌≡◌};
ghost use Rattle.refusals.specs.Refusals.{number};

// What document 01 and the requests refuse, in the order of the numbers.
#[derive(Clone, Copy, Debug, PartialEq, Eq)]
pub enum Refusal {
    NotABit,
    StopBitZero,
    BadOctet,
    TooManyOctets,
    NoCallFunction,
    ShortBuffer,
    AfterOver,
    Clock,
    WrongEvent,
    BadRecord,
    NotOffered,
    WrongCategory,
    CutShort,
    BadBlock,
    BadPacking,
    BadCadence,
}

// The number that the customer gives a refusal.
impl From<Refusal> for u8 {
    ghost from_gives = { λ r n. n ≡ number r };

    fn from(r: Refusal) -> u8 {
        match r {
            Refusal::NotABit => 1,
            Refusal::StopBitZero => 2,
            Refusal::BadOctet => 3,
            Refusal::TooManyOctets => 4,
            Refusal::NoCallFunction => 5,
            Refusal::ShortBuffer => 6,
            Refusal::AfterOver => 7,
            Refusal::Clock => 8,
            Refusal::WrongEvent => 9,
            Refusal::BadRecord => 10,
            Refusal::NotOffered => 11,
            Refusal::WrongCategory => 12,
            Refusal::CutShort => 13,
            Refusal::BadBlock => 14,
            Refusal::BadPacking => 15,
            Refusal::BadCadence => 16,
        }
    }
}
