// The modes of an end, and which call is allowed in which.
ghost use Rattle.std.specs.Prelude.{◌≡◌, MatchResult};
ghost use Rattle.field.specs.declared.refusal.Refusal.TheVariants.{InUse};
ghost use Rattle.end.specs.Modes.{Holds, InBlankOrReady, May, untimely};

use field::Refusal;
use ideal::Setting;

// What an end has been through: nothing yet, a setting loaded, a secret opened, the other side's offer taken.
#[derive(Clone, Copy)]
pub enum Mode {
    Blank,
    Ready(Setting),
    Open(Setting),
    Keyed(Setting),
}

// The calls that need a setting, and are refused in some mode. Load needs none, and is not among them.
#[derive(Clone, Copy)]
pub(crate) enum Call {
    Open,
    Tell,
    Take,
    Key,
    Find,
    Add,
}

impl Mode {
    // The first question of a call, which is about the mode alone: the setting that the call works with, or its refusal.
    pub(crate) fn setting_for(&self, call: Call) -> Result<&Setting, Refusal>
        ensures { MatchResult result (λ t. May self.now call × Holds self.now t.now) (λ e. ¬ (May self.now call) × (e ≡ untimely call)) }
    {
        match (self, call) {
            (Mode::Ready(s), Call::Open | Call::Find | Call::Add)
            | (Mode::Open(s), Call::Tell | Call::Take | Call::Find | Call::Add)
            | (Mode::Keyed(s), Call::Tell | Call::Key | Call::Find | Call::Add) => Ok(s),
            (_, Call::Open) => Err(Refusal::NotReady),
            (_, Call::Tell) => Err(Refusal::NothingToTell),
            (_, Call::Take) => Err(Refusal::NotOpen),
            (_, Call::Key) => Err(Refusal::NotKeyed),
            (_, Call::Find | Call::Add) => Err(Refusal::NotLoaded),
        }
    }

    // The first question of load. It is allowed to a blank end, which has no setting to answer, so it stands beside the others.
    pub(crate) fn may_load(self) -> Result<(), Refusal>
        ensures { MatchResult result (λ _. InBlankOrReady self) (λ e. ¬ (InBlankOrReady self) × (e ≡ InUse)) }
    {
        match self {
            Mode::Blank | Mode::Ready(_) => Ok(()),
            Mode::Open(_) | Mode::Keyed(_) => Err(Refusal::InUse),
        }
    }
}
