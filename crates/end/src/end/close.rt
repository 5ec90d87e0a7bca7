// Close: back to ready, with nothing kept.
ghost use Rattle.std.specs.Prelude.{◌≡◌};
ghost use Rattle.end.specs.Modes.{closed_mode};
ghost use Rattle.end.specs.Results.{Closes, Cleared};

use super::End;
use crate::modes::Mode;
use field::Field;
use ideal::Ideal;

impl<F: Field> End<F> {
    // An open or keyed end becomes ready, and its own distance, ideal and key zero. A blank or ready end stays as it is.
    pub fn close(&mut self)
        ensures follows { Closes (F.meaning self.old.field) self.old self.new }
        ensures over { self.new.field ≡ self.old.field }
        ensures mode { self.new.mode ≡ closed_mode self.old.mode }
        ensures cleared { Cleared self.old self.new }
    {
        match self.mode {
            Mode::Blank | Mode::Ready(_) => {}
            Mode::Open(setting) | Mode::Keyed(setting) => {
                self.mode = Mode::Ready(setting);
                self.ideal = Ideal::cleared();
                self.distance.fill(0);
                self.key = Ideal::cleared();
            }
        }
    }
}
