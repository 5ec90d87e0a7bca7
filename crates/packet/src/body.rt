// The sorts of packets, the kinds of bodies, and the bodies that a reader gives out.
ghost use Rattle.std.specs.Prelude.{◌≡◌};
ghost use Rattle.packet.specs.Bodies.{kind_number, first_kind, second_kind, kind_of, bytes_of};

// What stands in a body. In a table a kind is a number.
#[derive(Clone, Copy, PartialEq, Eq, Debug)]
pub enum Kind {
    // The field's size.
    Size = 1,
    // The polynomial D of a setting.
    D = 2,
    // Q and P of an ideal.
    Q = 3,
    P = 4,
}

impl From<Kind> for u8 {
    ghost from_gives = { λ kind n. n ≡ kind_number kind };

    fn from(kind: Kind) -> u8 {
        kind as u8
    }
}

// What a packet carries. Each sort has its two kinds of bodies, in rising order.
#[derive(Clone, Copy)]
pub enum Sort {
    // The field's size and D.
    Setting,
    // Q and P of an ideal.
    Offer,
}

impl Sort {
    // The kinds of the first and of the second body.
    pub fn kinds(self) -> (Kind, Kind)
        ensures { (kind_number result.0 ≡ first_kind self) × (kind_number result.1 ≡ second_kind self) }
    {
        match self {
            Sort::Setting => (Kind::Size, Kind::D),
            Sort::Offer => (Kind::Q, Kind::P),
        }
    }
}

// A body, named by its kind: the part of the caller's packet that it is. An enum, since a reader names a body by its kind, and
// later kinds become cases.
#[derive(Clone, Copy, PartialEq, Eq, Debug)]
pub enum Body<'a> {
    Size(&'a [u8]),
    D(&'a [u8]),
    Q(&'a [u8]),
    P(&'a [u8]),
}

impl<'a> Body<'a> {
    // The body of this kind.
    pub(crate) fn new(kind: Kind, part: &'a [u8]) -> Body<'a>
        ensures { (kind_of result ≡ kind_number kind) × (bytes_of result ≡ part.now) }
    {
        match kind {
            Kind::Size => Body::Size(part),
            Kind::D => Body::D(part),
            Kind::Q => Body::Q(part),
            Kind::P => Body::P(part),
        }
    }

    // What stands in it.
    pub fn kind(self) -> Kind
        ensures { kind_number result ≡ kind_of self.entry }
    {
        match self {
            Body::Size(_) => Kind::Size,
            Body::D(_) => Kind::D,
            Body::Q(_) => Kind::Q,
            Body::P(_) => Kind::P,
        }
    }

    // The part of the packet.
    pub fn bytes(self) -> &'a [u8]
        ensures { result.now ≡ bytes_of self.entry }
    {
        match self {
            Body::Size(part) | Body::D(part) | Body::Q(part) | Body::P(part) => part,
        }
    }
}
