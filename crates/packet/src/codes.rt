// The bodies of polynomials: codes from the highest degree down, each as 32 bits, high byte first. The empty body is the zero
// polynomial.
ghost use Rattle.std.specs.Prelude.{◌≡◌, ◌*◌, length, IfOk};
ghost use Rattle.rules.specs.Questions.{Answers, Answered, answer_of};
ghost use Rattle.rules.specs.Packets.{body_asks};
ghost use Rattle.packet.specs.Polynomials.{Stored, Reading};

use field::{Field, Refusal};
use poly::Poly;

// Puts the questions of a polynomial's body over a field of size `q`.
fn ask(q: u32, body: &[u8]) -> Result<(), Refusal>
    ensures { Answers (body_asks q body.now) (answer_of result) }
{
    let (codes, rest) = body.as_chunks::<4>();
    if !rest.is_empty() {
        return Err(Refusal::PartialCode);
    }
    if codes.iter().any(|code| u32::from_be_bytes(*code) >= q) {
        return Err(Refusal::CodeTooLarge);
    }
    if body.starts_with(&[0; 4]) {
        return Err(Refusal::LeadingZero);
    }
    Ok(())
}

// The polynomial of a body, or `None` where it has more codes than a record holds. There is no heap, so the codes are turned round
// in an array. They are written by place, since of an `iter_mut` zipped with them nothing is known once the loop is over.
fn stored(body: &[u8]) -> Option<Poly>
    ensures { Stored body.now result }
{
    let (codes, _) = body.as_chunks::<4>();
    let mut room = [0u32; 128];
    let coeffs = room.get_mut(..codes.len())?;
    for (k, code) in codes.iter().rev().enumerate() {
        coeffs[k] = u32::from_be_bytes(*code);
    }
    Poly::try_from(&*coeffs).ok()
}

// The polynomial of a body, over the field `f`. A body of more codes than a record holds is asked the same questions; where it
// passes them the answer is `None`: a polynomial of degree 128 or more, which is for the caller's own question of degree.
pub fn read_poly<F: Field>(f: &F, body: &[u8]) -> Result<Option<Poly>, Refusal>
    ensures answers { Answered (body_asks (F.meaning f.now).size body.now) (answer_of result) }
    ensures reading { IfOk result (λ p. Reading (F.meaning f.now) body.now p) }
{
    ask(f.size(), body)?;
    Ok(stored(body))
}
