// A question about places, each of them named by its number.
ghost use Rattle.script.specs.Requests.{Asked};

use crate::show::Shown;
use crate::wide::Wide;
use field::Field;
use ideal::Curve;
use place::Place;
use std::fmt;

#[derive(Clone, Copy)]
pub enum Request {
    // place n
    Find(Wide),
    // the sum of place s and place t
    Add(Wide, Wide),
    // n times place t
    Multiple(Wide, Wide),
}

impl Request {
    // The place that is asked for.
    pub fn place<F: Field>(&self, curve: &Curve<F>) -> Place
        ensures { Asked (F.meaning curve.now.field) curve.now.setting self.now result }
    {
        match self {
            Request::Find(n) => Place::find(curve, n.as_slice()),
            Request::Add(s, t) => {
                Place::find(curve, s.as_slice()).add(curve, &Place::find(curve, t.as_slice()))
            }
            Request::Multiple(n, t) => {
                Place::find(curve, t.as_slice()).multiple(curve, n.as_slice())
            }
        }
    }
}

// A place as people read it. Its Q and P are written here and for a stop: a type for the pair alone would be no plainer.
#[derive(Clone, Copy)]
pub struct Placed<'a>(pub &'a Place);

impl fmt::Display for Placed<'_> {
    fn fmt<W: fmt::Write>(&self, f: &mut fmt::Formatter<W>) -> fmt::Result {
        let q = Shown(self.0.ideal().q());
        let p = Shown(self.0.ideal().p());
        let offset = self.0.offset();
        write!(f, "Q = {q}, P = {p}, offset {offset}")
    }
}
