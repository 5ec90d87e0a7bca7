// Collecting codes, and the polynomial that they are.
ghost use Rattle.std.specs.Prelude.{◌≡◌, [], ◌∷◌, ◌++◌, length, MatchResult};
ghost use Rattle.script.specs.Lists.{code_list, Spelled};

use crate::codes::Codes;
use crate::fault::Problem;
use poly::Poly;

impl Codes {
    pub fn none() -> Codes
        ensures { code_list result ≡ [] }
    {
        Codes {
            list: [0; 128],
            len: 0,
        }
    }

    // One more code, of the next lower degree.
    pub fn push(&mut self, code: u32) -> Result<(), Problem>
        ensures { MatchResult result (λ _. code_list self.new ≡ code_list self.old ++ (code ∷ [])) (λ e. (e ≡ Problem.TooManyCoefficients) × (length (code_list self.old) ≡ 128) × (self.new ≡ self.old)) }
    {
        if self.len >= 128 {
            return Err(Problem::TooManyCoefficients);
        }
        self.list[self.len] = code;
        self.len += 1;
        Ok(())
    }

    pub(crate) fn as_slice(&self) -> &[u32]
        ensures { result.now ≡ code_list self.now }
    {
        &self.list[..self.len]
    }

    // The polynomial of these codes.
    pub fn polynomial(&self) -> Poly
        ensures { Spelled (code_list self.now) result }
    {
        let codes = self.as_slice();
        // turned round in an array of its own: the codes are lent, and there is no heap
        let mut places = [0u32; 128];
        let lowest = &mut places[..codes.len()];
        lowest.copy_from_slice(codes);
        lowest.reverse();
        Poly::try_from(&*lowest).unwrap()
    }
}
