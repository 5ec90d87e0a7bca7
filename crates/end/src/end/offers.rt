// Tell and key: offers written into a lent buffer.
ghost use Rattle.field.specs.declared.refusal.Refusal.TheVariants.{NothingToTell, NotKeyed};
ghost use Rattle.end.specs.Modes.{InOpenOrKeyed, InKeyed, Asked};
ghost use Rattle.end.specs.Results.{Tells, Keys, Kept};

use super::End;
use crate::modes::Call;
use field::{Field, Refusal};

impl<F: Field> End<F> {
    // Writes the offer of the end's ideal and answers its length. 34: is the end open or keyed? 35: is the buffer at least as
    // long as the offer? Bytes behind the offer stay as they were.
    pub fn tell(&self, out: &mut [u8]) -> Result<usize, Refusal>
        ensures follows { Tells (F.meaning self.now.field) self.now out.old out.new result }
        ensures kept { Kept out.old out.new result }
        ensures asked { Asked (InOpenOrKeyed self.now.mode) NothingToTell result }
    {
        self.mode.setting_for(Call::Tell)?;
        packet::write_offer(self.ideal.q(), self.ideal.p(), out)
    }

    // Writes the key's offer and answers its length. 37: is the end keyed? 35 as above.
    pub fn key(&self, out: &mut [u8]) -> Result<usize, Refusal>
        ensures follows { Keys (F.meaning self.now.field) self.now out.old out.new result }
        ensures kept { Kept out.old out.new result }
        ensures asked { Asked (InKeyed self.now.mode) NotKeyed result }
    {
        self.mode.setting_for(Call::Key)?;
        packet::write_offer(self.key.q(), self.key.p(), out)
    }
}
