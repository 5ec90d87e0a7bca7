// The record of an end, and of a place as it is handed in.
ghost use Rattle.std.specs.Prelude.{◌≡◌, MatchResult};
ghost use Rattle.end.specs.Modes.{Holds, May, untimely};

use crate::modes::{Call, Mode};
use field::{Field, Refusal};
use ideal::{Curve, Ideal};
use poly::Poly;

mod close;
mod load;
mod make;
mod offers;
mod open;
mod places;
mod take;

// An end over the field F. In the modes blank and ready the ideal, the own distance and the key are zero: they stand beside the mode
// and not in it, as a closed end is to hold zeros in the memory where they were.
#[derive(Drop)]
pub struct End<F> {
    field: F,
    mode: Mode,
    // the ideal closest to the left of the secret number
    ideal: Ideal,
    // its distance, the end's own distance, with the high byte first
    distance: [u8; 32],
    key: Ideal,
}

impl<F: Field> End<F> {
    // The curve that a call works over: the field, with the setting that the mode allows the call; or the call's refusal.
    fn curve_for(&self, call: Call) -> Result<Curve<&F>, Refusal>
        ensures { MatchResult result (λ c. May self.now.mode call × Holds self.now.mode c.setting × (c.field.now ≡ self.now.field)) (λ e. ¬ (May self.now.mode call) × (e ≡ untimely call)) }
    {
        let setting = self.mode.setting_for(call)?;
        Ok(Curve {
            field: &self.field,
            setting: *setting,
        })
    }
}

// A place as somebody outside claims it: its codes may be anything, and nothing says that it is one.
#[derive(Clone, Copy)]
pub struct GivenPlace {
    pub q: Poly,
    pub p: Poly,
    pub offset: usize,
}
