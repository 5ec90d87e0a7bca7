// Whole packets: the questions of a packet and those of its bodies, in the order in which a setting is loaded and an offer taken.
ghost use Rattle.std.specs.Prelude.{IfOk};
ghost use Rattle.rules.specs.Questions.{Answered, answer_of};
ghost use Rattle.rules.specs.Packets.{body as body_at, first, second};
ghost use Rattle.packet.specs.Polynomials.{Reading};
ghost use Rattle.packet.specs.Contents.{setting_asked, offer_asked};

use super::body::Sort;
use super::codes::read_poly;
use super::reader::read;
use field::{Field, Refusal};
use poly::Poly;

// The polynomial D of a setting packet for the field `f`; `None` where it has more codes than a record holds.
pub fn read_setting<F: Field>(f: &F, packet: &[u8]) -> Result<Option<Poly>, Refusal>
    ensures answers { Answered (setting_asked (F.meaning f.now).size packet.now) (answer_of result) }
    ensures reading { IfOk result (λ d. Reading (F.meaning f.now) (body_at packet.now second) d) }
{
    let (size, d) = read(Sort::Setting, packet)?;
    if size.bytes() != f.size().to_be_bytes().as_slice() {
        return Err(Refusal::WrongFieldSize);
    }
    read_poly(f, d.bytes())
}

// The polynomials Q and P of an offer over the field `f`; `None` for one that has more codes than a record holds.
pub fn read_offer<F: Field>(f: &F, packet: &[u8]) -> Result<(Option<Poly>, Option<Poly>), Refusal>
    ensures answers { Answered (offer_asked (F.meaning f.now).size packet.now) (answer_of result) }
    ensures reading { IfOk result (λ o. Reading (F.meaning f.now) (body_at packet.now first) o.0 × Reading (F.meaning f.now) (body_at packet.now second) o.1) }
{
    let (q, p) = read(Sort::Offer, packet)?;
    let q = read_poly(f, q.bytes())?;
    let p = read_poly(f, p.bytes())?;
    Ok((q, p))
}
