// Places from their parts.
ghost use Rattle.std.specs.Prelude.{◌≡◌};
ghost use Rattle.place.specs.Results.{step_length, Origin, Start, NoTimes, Fitted, PlaceMade};

use super::Place;
use field::Refusal;
use ideal::{Ideal, Setting};

// The length m − deg Q of the step from a reduced ideal.
pub(crate) fn step_length(setting: &Setting, ideal: &Ideal) -> usize
    ensures { result ≡ step_length setting.now ideal.now }
{
    let degree = ideal.q().len().saturating_sub(1);
    setting.half().saturating_sub(degree)
}

impl Place {
    // Place 0: the ideal (1) with the offset 0. It is 0 times every place.
    pub fn origin() -> Place
        ensures is { Origin result }
        ensures line { Start result }
        ensures times { NoTimes result }
    {
        Place {
            ideal: Ideal::one(),
            offset: 0,
        }
    }

    // The place of a reduced ideal and an offset, or 46 where the offset is not below m − deg Q.
    pub fn new(setting: &Setting, ideal: &Ideal, offset: usize) -> Result<Place, Refusal>
        ensures fitted { Fitted setting.now ideal.now offset result }
        ensures made { PlaceMade setting.now ideal.now offset result }
    {
        if offset >= step_length(setting, ideal) {
            return Err(Refusal::OffsetTooLarge);
        }
        Ok(Place {
            ideal: *ideal,
            offset,
        })
    }

    pub fn ideal(&self) -> &Ideal
        ensures { result.now ≡ self.now.ideal }
    {
        &self.ideal
    }

    pub fn offset(&self) -> usize
        ensures { result ≡ self.now.offset }
    {
        self.offset
    }
}
