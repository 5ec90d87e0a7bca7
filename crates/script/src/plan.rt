// What the program `line` is asked for.
ghost use Rattle.std.specs.Prelude.{IfSome, IfOk};
ghost use Rattle.script.specs.Plans.{Short, Sound, SoundPlan};

use crate::codes::Codes;
use crate::fault::{Fault, Problem};
use crate::ground::setting;
use crate::request::Request;
use crate::words::Words;
use ideal::Curve;
use tower::Tower;

// How many steps may be asked for.
const MOST_STEPS: u32 = 1000000;

#[derive(Clone, Copy)]
pub struct Plan {
    pub curve: Curve<Tower>,
    pub steps: u32,
}

// What stands on a line.
#[derive(Clone, Copy)]
enum Item {
    Prime(u32),
    Extend(u32),
    Setting(Codes),
    Steps(u32),
    Ask(Request),
}

// How far the reading has come.
#[derive(Clone, Copy)]
enum Draft {
    Blank,
    Field(Tower),
    Ground(Curve<Tower>),
    Whole(Plan),
}

// The item on a line; an empty line and one that begins with # have none.
fn item_on(line: &str) -> Result<Option<Item>, Problem>
    ensures { IfOk result (λ found. IfSome found Short) }
{
    let mut words = Words::of(line);
    let Some(name) = words.word() else {
        return Ok(None);
    };
    if name.starts_with('#') {
        return Ok(None);
    }
    let item = match name {
        "prime" => Item::Prime(words.number(u32::MAX)?),
        "extend" => Item::Extend(words.number(u32::MAX)?),
        "setting" => Item::Setting(words.codes()?),
        "steps" => Item::Steps(words.number(MOST_STEPS)?),
        "find" => Item::Ask(Request::Find(words.wide_number()?)),
        "add" => Item::Ask(Request::Add(words.wide_number()?, words.wide_number()?)),
        "multiple" => Item::Ask(Request::Multiple(words.wide_number()?, words.wide_number()?)),
        _ => return Err(Problem::UnknownItem),
    };
    words.end()?;
    Ok(Some(item))
}

impl Draft {
    // The prime field comes first, extensions follow it, and the setting ends them; the number of steps ends what must be
    // there. Questions about places may follow, and change nothing.
    fn with(self, item: Item) -> Result<Draft, Problem>
        requires sound { Sound self }
        requires short { Short item }
        ensures { IfOk result Sound }
    {
        match (self, item) {
            (Draft::Blank, Item::Prime(p)) => Ok(Draft::Field(Tower::prime(p)?)),
            (Draft::Field(field), Item::Extend(n)) => Ok(Draft::Field(field.extend(n)?)),
            (Draft::Field(field), Item::Setting(codes)) => {
                let setting = setting(&field, &codes)?;
                Ok(Draft::Ground(Curve { field, setting }))
            }
            (Draft::Ground(curve), Item::Steps(steps)) => {
                Ok(Draft::Whole(Plan { curve, steps }))
            }
            (Draft::Whole(plan), Item::Ask(_)) => Ok(Draft::Whole(plan)),
            _ => Err(Problem::Misplaced),
        }
    }

    // What a line adds.
    fn line(self, line: &str) -> Result<Draft, Problem>
        requires { Sound self }
        ensures { IfOk result Sound }
    {
        match item_on(line)? {
            None => Ok(self),
            Some(item) => self.with(item),
        }
    }
}

// The plan that an input asks for, or what is wrong with it.
pub fn read(text: &str) -> Result<Plan, Fault>
    ensures { IfOk result SoundPlan }
{
    let mut draft = Draft::Blank;
    for (k, line) in text.lines().enumerate() {
        draft = draft.line(line).map_err(|what| Fault {
            line: k.saturating_add(1),
            what,
        })?;
    }
    match draft {
        Draft::Whole(plan) => Ok(plan),
        _ => Err(Fault {
            line: text.lines().count().saturating_add(1),
            what: Problem::Unfinished,
        }),
    }
}

// The question about places on a line, if there is one.
pub fn request_on(line: &str) -> Option<Request> {
    let item = item_on(line).ok().flatten()?;
    match item {
        Item::Ask(request) => Some(request),
        _ => None,
    }
}
