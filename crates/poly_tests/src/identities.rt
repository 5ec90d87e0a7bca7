// Identities that hold of all polynomials over a field, as checks. `rt` is the handle that every assert takes; a struct of it and the field
// would be taken apart in each check.
use crate::generated::Numbers;
use field::Field;
use poly::Poly;
use std::process::Abort;
use std::test::Fail;

pub fn sums<F: Field>(rt: &impl Abort, f: &F, a: &Poly, b: &Poly) {
    let sum = a.add(f, b);
    assert!(rt; sum.sub(f, b) == *a, "(a + b) - b = a");
    assert!(rt; sum == b.add(f, a), "a + b = b + a");
    assert!(rt; a.sub(f, b) == a.add(f, &b.neg(f)), "a - b = a + (-b)");
    assert!(rt; a.sub(f, a).is_zero(), "a - a = 0");
}

pub fn products<F: Field>(rt: &impl Abort, f: &F, a: &Poly, b: &Poly, c: &Poly) {
    let ab = a.mul(f, b);
    let ac = a.mul(f, c);
    assert!(rt; ab == b.mul(f, a), "a b = b a");
    assert!(rt;
        a.mul(f, &b.add(f, c)) == ab.add(f, &ac),
        "a (b + c) = a b + a c"
    );
    assert!(rt;
        ab.minus_product(f, a, c) == a.mul(f, &b.sub(f, c)),
        "a b - a c = a (b - c)"
    );
    assert!(rt;
        a.is_zero() || b.is_zero() || ab.len() + 1 == a.len() + b.len(),
        "length of a b"
    );
    let top = a.coeff(a.len().saturating_sub(1));
    assert!(rt;
        b.scale(f, top) == Poly::constant(top).mul(f, b),
        "multiple by a constant"
    );
}

pub fn quotients<F: Field>(rt: &impl Abort, f: &F, a: &Poly, b: &Poly) {
    let (q, r) = a.div_rem(f, b);
    assert!(rt;
        b.is_zero() || r.len() < b.len(),
        "remainder shorter than the divisor"
    );
    assert!(rt; q.mul(f, b).add(f, &r) == *a, "a = q b + r");
    let (whole, none) = a.mul(f, b).div_rem(f, b);
    assert!(rt;
        b.is_zero() || (whole == *a && none.is_zero()),
        "a b / b = a"
    );
}

// With a common factor c put in.
pub fn divisors<F: Field>(rt: &impl Abort, f: &F, a: &Poly, b: &Poly, c: &Poly) {
    let x = a.mul(f, c);
    let y = b.mul(f, c);
    let (p, q, g) = x.gcd(f, &y);
    assert!(rt; p.mul(f, &x).add(f, &q.mul(f, &y)) == g, "g = p x + q y");
    assert!(rt;
        multiple(f, &x, &g) && multiple(f, &y, &g),
        "g divides x and y"
    );
    assert!(rt; multiple(f, &g, c), "c divides g");
    assert!(rt; g == g.monic(f), "g is monic");
}

pub fn monics<F: Field>(rt: &impl Abort, f: &F, a: &Poly) {
    let m = a.monic(f);
    assert!(rt; m == m.monic(f), "the monic form of a monic form");
    assert!(rt;
        m.coeff(a.len().saturating_sub(1)) == u32::from(!a.is_zero()),
        "the leading coefficient is 1"
    );
    assert!(rt;
        multiple(f, a, &m) && multiple(f, &m, a),
        "multiples of one another"
    );
}

pub fn derivatives<F: Field>(rt: &impl Abort, f: &F, a: &Poly, b: &Poly) {
    let left = a.derivative(f).mul(f, b);
    let right = a.mul(f, &b.derivative(f));
    assert!(rt;
        a.mul(f, b).derivative(f) == left.add(f, &right),
        "(a b)' = a' b + a b'"
    );
}

pub fn comparisons<F: Field>(rt: &impl Abort, f: &F, a: &Poly) -> Result<(), Fail> {
    assert!(rt; *a == *a, "a = a");
    assert!(rt; *a != a.add(f, &Poly::one()), "a is not a + 1");
    assert_eq!(rt; a.codes().len(), a.len());
    assert!(rt; *a == Poly::try_from(a.codes())?, "a is read back");
    Ok(())
}

// Each coefficient of the product that the record holds is the sum of products that it should be, also where others are lost.
pub fn low_products<F: Field>(rt: &impl Abort, f: &F, a: &Poly, b: &Poly) {
    let ab = a.mul(f, b);
    for k in 0..128 {
        let mut sum = 0;
        // By index, as the sum goes over all i and j with i + j = k.
        for i in 0..=k {
            sum = f.add(sum, f.mul(a.coeff(i), b.coeff(k - i)));
        }
        assert_eq!(rt; ab.coeff(k), sum);
    }
}

// All of them on generated polynomials of degrees 0 to 63, and 0 among them.
pub fn identities<F: Field>(rt: &impl Abort, f: &F) -> Result<(), Fail> {
    let mut numbers = Numbers(20);
    for n in 0..65usize {
        let a = numbers.poly(f, n)?;
        let b = numbers.poly(f, n * 7 % 65)?;
        let c = numbers.poly(f, n * 31 % 65)?;
        assert_eq!(rt; a.len(), n);
        sums(rt, f, &a, &b);
        products(rt, f, &a, &b, &c);
        quotients(rt, f, &a, &b);
        divisors(rt, f, &a, &b, &c);
        monics(rt, f, &a);
        derivatives(rt, f, &a, &b);
        comparisons(rt, f, &a)?;
    }
    low_products(rt, f, &numbers.poly(f, 128)?, &numbers.poly(f, 100)?);
    Ok(())
}

fn multiple<F: Field>(f: &F, a: &Poly, b: &Poly) -> bool {
    let (_, r) = a.div_rem(f, b);
    r.is_zero()
}
