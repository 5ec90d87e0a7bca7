// Polynomials as people write them: the highest degree first, no term whose coefficient is 0, no coefficient 1 but the last.
use poly::Poly;
use std::fmt;

#[derive(Clone, Copy)]
pub struct Shown<'a>(pub &'a Poly);

// The term c·x^k.
#[derive(Clone, Copy)]
struct Term {
    c: u32,
    k: usize,
}

impl fmt::Display for Term {
    fn fmt<W: fmt::Write>(&self, f: &mut fmt::Formatter<W>) -> fmt::Result {
        let c = self.c;
        let k = self.k;
        match (c, k) {
            (_, 0) => write!(f, "{c}"),
            (1, 1) => f.write_str("x"),
            (_, 1) => write!(f, "{c}x"),
            (1, _) => write!(f, "x^{k}"),
            _ => write!(f, "{c}x^{k}"),
        }
    }
}

impl fmt::Display for Shown<'_> {
    fn fmt<W: fmt::Write>(&self, f: &mut fmt::Formatter<W>) -> fmt::Result {
        let Some(degree) = self.0.len().checked_sub(1) else {
            return f.write_str("0");
        };
        for (k, c) in self.0.codes().iter().copied().enumerate().rev() {
            if c > 0 {
                if k < degree {
                    f.write_str(" + ")?;
                }
                let term = Term { c, k };
                write!(f, "{term}")?;
            }
        }
        Ok(())
    }
}
