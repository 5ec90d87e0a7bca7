// Load: a setting from its packet.
ghost use Rattle.field.specs.declared.refusal.Refusal.TheVariants.{InUse};
ghost use Rattle.end.specs.Modes.{InBlankOrReady, Asked};
ghost use Rattle.end.specs.Results.{Loads, SettingRead, Unchanged, OnlyMode};

use super::End;
use crate::modes::Mode;
use field::{Field, Refusal};
use ideal::Setting;

// The setting of a packet, or the first of its questions with the answer no.
fn read_setting<F: Field>(f: &F, bytes: &[u8]) -> Result<Setting, Refusal>
    ensures { SettingRead (F.meaning f.now) bytes.now result }
{
    // where there are more codes than a record holds, the degree is above 50
    let radicand = packet::read_setting(f, bytes)?.ok_or(Refusal::WrongDegree)?;
    Setting::new(f, &radicand)
}

impl<F: Field> End<F> {
    // Takes a setting packet; the end is then ready. 30: is the end blank or ready? Then the questions of the packet, of the
    // field's size and of the setting.
    pub fn load(&mut self, bytes: &[u8]) -> Result<(), Refusal>
        ensures follows { Loads (F.meaning self.old.field) self.old bytes.now result self.new }
        ensures rest { OnlyMode self.old self.new }
        ensures unchanged { Unchanged self.old self.new result }
        ensures asked { Asked (InBlankOrReady self.old.mode) InUse result }
    {
        self.mode.may_load()?;
        let setting = read_setting(&self.field, bytes)?;
        self.mode = Mode::Ready(setting);
        Ok(())
    }
}
