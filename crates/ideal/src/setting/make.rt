// Making a setting: the questions put to D, and the root part d.
ghost use Rattle.std.specs.Prelude.{◌≡◌, ℕ, ◌≤◌, ◌≢◌};
ghost use Rattle.field.specs.Meaning.{Lawful};
ghost use Rattle.rules.specs.Settings.{Accepted};
ghost use Rattle.poly.specs.Values.{at, Is};
ghost use Rattle.ideal.specs.Results.{SettingMade};
ghost use Rattle.ideal.specs.Degrees.{DegreeAsked};

use super::Setting;
use crate::monic::is_monic;
use field::{Field, Refusal};
use poly::Poly;

// The polynomial c·x^i, where i is at most m.
fn monomial(c: u32, i: usize) -> Poly
    requires { i ≤ 25 }
    ensures there { at result i ≡ c }
    ensures others { (k : ℕ) → k ≢ i → at result k ≡ 0 }
{
    let mut coeffs = [0u32; 26];
    coeffs[i] = c;
    Poly::try_from(&coeffs[..]).unwrap()
}

// d, filled from the top: with the terms above x^i in place, the coefficient of x^(m+i) in D − d·d is twice the one wanted.
fn root<F: Field>(f: &F, radicand: &Poly, half: usize) -> Poly
    requires { half ≤ 25 }
    ensures { (L : Lawful (F.meaning f.now)) (A : Accepted L) → Is L radicand.now A.D → half ≡ A.m → Is L result A.d }
{
    let half_of_one = Poly::constant(f.add(1, 1)).top_inverse(f);
    let mut d = monomial(1, half);
    for i in (0..half).rev() {
        let rest = radicand.sub(f, &d.mul(f, &d));
        let c = f.mul(rest.coeff(half + i), half_of_one);
        d = d.add(f, &monomial(c, i));
    }
    d
}

impl Setting {
    // The setting of D, or the first question with the answer no: 21 the degree is even and from 4 to 50, 22 D is monic,
    // 23 D and its derivative have no common factor.
    pub fn new<F: Field>(f: &F, radicand: &Poly) -> Result<Setting, Refusal>
        ensures made { SettingMade (F.meaning f.now) radicand.now result }
        ensures degree { DegreeAsked radicand.now result }
    {
        let len = radicand.len();
        if len % 2 == 0 || !(5..=51).contains(&len) {
            return Err(Refusal::WrongDegree);
        }
        if !is_monic(radicand) {
            return Err(Refusal::SettingNotMonic);
        }
        let (_, _, common) = radicand.gcd(f, &radicand.derivative(f));
        if common.len() != 1 {
            return Err(Refusal::CommonFactor);
        }
        let half = len / 2;
        let root = root(f, radicand, half);
        Ok(Setting {
            radicand: *radicand,
            root,
            half,
        })
    }

    // m, half the degree of D.
    pub fn half(&self) -> usize
        ensures { (result ≡ self.now.half) × ((2 ≤ result) × (result ≤ 25)) }
    {
        self.half
    }

    // D.
    pub fn radicand(&self) -> &Poly
        ensures { result.now ≡ self.now.radicand }
    {
        &self.radicand
    }

    // d.
    pub fn root(&self) -> &Poly
        ensures { result.now ≡ self.now.root }
    {
        &self.root
    }
}
