// Sums of places.
ghost use Rattle.place.specs.Results.{Paced, Walked, Summed, SummedAt, Added, AddedAt};

use super::make::step_length;
use super::{GiantStep, Place};
use field::Field;
use ideal::Curve;

// One step of a walk, where the offset is the gap that is left: the next ideal, with the gap lessened by the length of the step.
// There is none where the gap is below that length; a gap equal to it takes the step.
fn pace<F: Field>(curve: &Curve<F>, place: &Place) -> Option<Place>
    ensures { Paced (F.meaning curve.now.field) curve.now.setting place.now result }
{
    let length = step_length(&curve.setting, &place.ideal);
    if place.offset < length {
        return None;
    }
    let (next, _) = place.ideal.step(curve);
    Some(Place {
        ideal: next,
        offset: place.offset - length,
    })
}

// The walk from a reduced ideal over a gap, given as the offset. Each step takes at least 1 from the gap, and no gap between two
// places is above 4·m.
fn walk<F: Field>(curve: &Curve<F>, start: &Place) -> Place
    ensures { Walked (F.meaning curve.now.field) curve.now.setting start.now result }
{
    let mut place = *start;
    for _ in 0..4 * curve.setting.half() {
        let Some(next) = pace(curve, &place) else {
            break;
        };
        place = next;
    }
    place
}

// The sum of two places with a gap that is greater by `more`.
pub(crate) fn sum<F: Field>(curve: &Curve<F>, a: &Place, b: &Place, more: usize) -> Place
    ensures sums { Summed (F.meaning curve.now.field) curve.now.setting a.now b.now more result }
    ensures line { SummedAt (F.meaning curve.now.field) curve.now.setting a.now b.now more result }
{
    let giant = GiantStep::new(curve, &a.ideal, &b.ideal);
    let offsets = a.offset.saturating_add(b.offset).saturating_add(more);
    let offset = giant.gap(offsets);
    walk(
        curve,
        &Place {
            ideal: giant.ideal,
            offset,
        },
    )
}

impl Place {
    // The sum of two places: of place s and place t it is place s + t.
    pub fn add<F: Field>(&self, curve: &Curve<F>, other: &Place) -> Place
        ensures sums { Added (F.meaning curve.now.field) curve.now.setting self.now other.now result }
        ensures line { AddedAt (F.meaning curve.now.field) curve.now.setting self.now other.now result }
    {
        sum(curve, self, other, 0)
    }
}
