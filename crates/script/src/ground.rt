// The setting that an input names after its field.
ghost use Rattle.script.specs.Grounds.{PolynomialRead, SettingRead};
ghost use Rattle.script.specs.Lists.{code_list};

use crate::codes::Codes;
use field::{Field, Refusal};
use ideal::Setting;
use poly::Poly;

// The polynomial of these codes, or the first question with the answer no: 15 every code is below the field's size, 16 the
// first code is not 0.
fn polynomial<F: Field>(f: &F, codes: &Codes) -> Result<Poly, Refusal>
    ensures { PolynomialRead (F.meaning f.now).size (code_list codes.now) result }
{
    let size = f.size();
    let list = codes.as_slice();
    if list.iter().any(|code| *code >= size) {
        return Err(Refusal::CodeTooLarge);
    }
    if list.first() == Some(&0) {
        return Err(Refusal::LeadingZero);
    }
    Ok(codes.polynomial())
}

// The setting whose D has these codes, or the first question with the answer no: those of the codes come first.
pub(crate) fn setting<F: Field>(f: &F, codes: &Codes) -> Result<Setting, Refusal>
    ensures { SettingRead (F.meaning f.now) (code_list codes.now) result }
{
    let radicand = polynomial(f, codes)?;
    Setting::new(f, &radicand)
}
