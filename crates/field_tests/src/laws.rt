// The laws of a field, tried at every code, pair of codes and triple of codes, and at numbers that are no codes.
use field::Field;

// Whether every code has its inverse, but for 0, which has none.
pub fn inverses<F: Field>(f: &F) -> bool {
    (0..f.size()).all(|a| inverse(f, a))
}

// Whether every law holds.
pub fn laws<F: Field>(f: &F) -> bool {
    let q = f.size();
    q >= 3
        && f.add(1, 1) != 0
        && (0..q).all(|a| single(f, a)
            && outside(f, a, q)
            && outside(f, a, u32::MAX)
            && pairs(f, a))
}

fn pairs<F: Field>(f: &F, a: u32) -> bool {
    (0..f.size()).all(|b| pair(f, a, b) && triples(f, a, b))
}

fn triples<F: Field>(f: &F, a: u32, b: u32) -> bool {
    (0..f.size()).all(|c| triple(f, a, b, c))
}

fn inverse<F: Field>(f: &F, a: u32) -> bool {
    match f.inv(a) {
        None => a == 0,
        Some(b) => a != 0 && b < f.size() && f.mul(a, b) == 1,
    }
}

// The laws of one code: 0 and 1 are neutral, the opposite and the inverse.
fn single<F: Field>(f: &F, a: u32) -> bool {
    let opposite = f.neg(a);
    f.add(a, 0) == a
        && f.mul(a, 1) == a
        && opposite < f.size()
        && f.add(a, opposite) == 0
        && inverse(f, a)
}

// The laws of two codes: the answers are codes, and the order does not matter.
fn pair<F: Field>(f: &F, a: u32, b: u32) -> bool {
    let sum = f.add(a, b);
    let product = f.mul(a, b);
    sum < f.size() && product < f.size() && f.add(b, a) == sum && f.mul(b, a) == product
}

// The laws of three codes: grouping does not matter, and the product distributes over the sum.
fn triple<F: Field>(f: &F, a: u32, b: u32, c: u32) -> bool {
    let sum = f.add(b, c);
    let product = f.mul(a, b);
    f.add(f.add(a, b), c) == f.add(a, sum)
        && f.mul(product, c) == f.mul(a, f.mul(b, c))
        && f.mul(a, sum) == f.add(product, f.mul(a, c))
}

// What a number that is no code makes of every answer, beside a code and alone.
fn outside<F: Field>(f: &F, a: u32, out: u32) -> bool {
    let sums = f.add(a, out) == 0 && f.add(out, a) == 0;
    let products = f.mul(a, out) == 0 && f.mul(out, a) == 0;
    sums && products && f.neg(out) == 0 && f.inv(out).is_none()
}
