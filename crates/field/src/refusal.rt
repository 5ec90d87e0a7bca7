// Why a field, a packet, a setting or a call is refused. The rules put their questions in a fixed order, and the first one
// with the answer no decides: each question has a variant here, with the number that goes out to callers.
ghost use Rattle.std.specs.Prelude.{◌≡◌, Decides, ◌==◌};
ghost use Rattle.field.specs.Refusals.{refusal_number};
ghost use Rattle.std.specs.Cmp.Rules.{comparing};
ghost use Rattle.std.proofs.Common.{rules};

use std::error::Error;
use std::fmt;

#[derive(Clone, Copy, Eq, Debug)]
pub enum Refusal {
    // making a field
    NotAModulus = 1,
    TooLarge = 2,
    NotACode = 3,
    Square = 4,
    // reading a packet
    PacketTooShort = 10,
    WrongCount = 11,
    WrongKinds = 12,
    WrongLayout = 13,
    PartialCode = 14,
    CodeTooLarge = 15,
    LeadingZero = 16,
    // loading a setting
    WrongFieldSize = 20,
    WrongDegree = 21,
    SettingNotMonic = 22,
    CommonFactor = 23,
    // calling an end
    InUse = 30,
    NotReady = 31,
    WrongSecretLength = 32,
    TrivialSecret = 33,
    NothingToTell = 34,
    BufferTooSmall = 35,
    NotOpen = 36,
    NotKeyed = 37,
    NotLoaded = 38,
    // taking an ideal or a place
    NotReduced = 40,
    IdealNotMonic = 41,
    NotLower = 42,
    NotAnIdeal = 43,
    TrivialOffer = 44,
    TrivialKey = 45,
    OffsetTooLarge = 46,
}

impl Refusal {
    // The number of the question that had the answer no. No two refusals have one number.
    pub fn number(self) -> u16
        ensures value { result ≡ refusal_number self }
        ensures alone { (other : Refusal) → refusal_number other ≡ result → other ≡ self }
    {
        self as u16
    }

    // What was found, in words.
    fn words(self) -> &'static str {
        match self {
            Refusal::NotAModulus => "the modulus is none of the ten",
            Refusal::TooLarge => "the extension would have more than 2147483647 elements",
            Refusal::NotACode => "the number whose root is added is no code of the field below",
            Refusal::Square => "the number whose root is added is a square in the field below",
            Refusal::PacketTooShort => "the packet has fewer than 11 bytes",
            Refusal::WrongCount => "the packet's count of entries is not 2",
            Refusal::WrongKinds => "the packet's kinds are not those wanted, in rising order",
            Refusal::WrongLayout =>
                "the packet's bodies do not follow its table one after the other to its end",
            Refusal::PartialCode => "a polynomial's body has a length that is no multiple of 4",
            Refusal::CodeTooLarge => "a polynomial has a code that is not below the field's size",
            Refusal::LeadingZero => "a polynomial's first code is 0",
            Refusal::WrongFieldSize => "the setting is not for a field of this size",
            Refusal::WrongDegree =>
                "the setting's polynomial has a degree that is odd or not from 4 to 50",
            Refusal::SettingNotMonic => "the setting's polynomial is not monic",
            Refusal::CommonFactor =>
                "the setting's polynomial and its derivative have a common factor",
            Refusal::InUse => "the end is neither blank nor ready",
            Refusal::NotReady => "the end is not ready",
            Refusal::WrongSecretLength => "the number has not 1 to 32 bytes",
            Refusal::TrivialSecret => "the secret's ideal is (1)",
            Refusal::NothingToTell => "the end is neither open nor keyed",
            Refusal::BufferTooSmall => "the buffer is shorter than the packet to write",
            Refusal::NotOpen => "the end is not open",
            Refusal::NotKeyed => "the end is not keyed",
            Refusal::NotLoaded => "no setting is loaded",
            Refusal::NotReduced => "the ideal's Q is zero or of degree m or more",
            Refusal::IdealNotMonic => "the ideal's Q is not monic",
            Refusal::NotLower => "the ideal's P is not of lower degree than Q",
            Refusal::NotAnIdeal => "the ideal's Q does not divide D - P*P",
            Refusal::TrivialOffer => "the offered ideal is (1)",
            Refusal::TrivialKey => "the key would be (1)",
            Refusal::OffsetTooLarge => "the place's offset is not below m - deg Q",
        }
    }
}

// No two refusals have one number. Written by hand, since a derived comparison would say nothing of the numbers.
impl PartialEq for Refusal {
    ghost eq = { λ x y. refusal_number x == refusal_number y };

    ghost laws = { Prim.search (comparing, rules) };

    fn eq(&self, other: &Refusal) -> bool
        ensures value { result ≡ (refusal_number self.now == refusal_number other.now) }
        ensures decides { Decides result (refusal_number self.now ≡ refusal_number other.now) }
        ensures same { Decides result (self.now ≡ other.now) }
    {
        self.number() == other.number()
    }
}

// For people; programs go by the number.
impl fmt::Display for Refusal {
    fn fmt<W: fmt::Write>(&self, f: &mut fmt::Formatter<W>) -> fmt::Result {
        f.write_str(self.words())
    }
}

impl Error for Refusal {}
