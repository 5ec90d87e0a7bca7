// The line as the rules tell it, with nothing but baby steps.
use field::{Field, Refusal};
use ideal::{Curve, Ideal, Setting};
use place::Place;

// Place t.
#[derive(Clone, Copy)]
pub struct Walker {
    ideal: Ideal,
    offset: usize,
}

impl Walker {
    // At place 0.
    pub fn start() -> Walker {
        Walker {
            ideal: Ideal::one(),
            offset: 0,
        }
    }

    // From place t to place t + 1: one more in the offset, or the next ideal where the length of the step is reached.
    pub fn advance<F: Field>(&mut self, curve: &Curve<F>) {
        let (next, far) = self.ideal.step(curve);
        let length = far.saturating_sub(self.ideal.q().len());
        let offset = self.offset.saturating_add(1);
        if offset < length {
            self.offset = offset;
        } else {
            self.ideal = next;
            self.offset = 0;
        }
    }

    // Whether this is (1) again.
    pub fn is_home(&self) -> bool {
        self.ideal.is_one() && self.offset == 0
    }

    pub fn place(&self, setting: &Setting) -> Result<Place, Refusal> {
        Place::new(setting, &self.ideal, self.offset)
    }
}

// The length of the ring: how far it is to the next (1), where it is nearer than 1000.
pub fn ring<F: Field>(curve: &Curve<F>) -> Option<usize> {
    let mut walker = Walker::start();
    (1..1000usize).find(|_| {
        walker.advance(curve);
        walker.is_home()
    })
}
