// New ends.
ghost use Rattle.std.specs.Prelude.{◌≡◌};
ghost use Rattle.field.specs.Meaning.{Meaning, Lawful};
ghost use Rattle.rules.specs.Ends.{blank};
ghost use Rattle.end.specs.Values.{EndIs, Empty};

use super::End;
use crate::modes::Mode;
use field::Field;
use ideal::Ideal;

impl<F: Field> End<F> {
    // A blank end over the field.
    pub fn new(field: F) -> End<F>
        ensures is { (M : Meaning) (L : Lawful M) → EndIs L result blank }
        ensures over { result.field ≡ field }
        ensures empty { Empty result }
    {
        End {
            field,
            mode: Mode::Blank,
            ideal: Ideal::cleared(),
            distance: [0; 32],
            key: Ideal::cleared(),
        }
    }

    pub fn mode(&self) -> Mode
        ensures { result ≡ self.now.mode }
    {
        self.mode
    }
}
