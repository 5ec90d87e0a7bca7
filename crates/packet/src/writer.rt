// The writer of packets: into a lent buffer, of which it changes the bytes of the packet and no others.
ghost use Rattle.std.specs.Prelude.{◌≡◌, ◌+◌, ◌*◌, ◌<◌, ◌≤◌, length, reverse, take, IfOk};
ghost use Rattle.rules.specs.Packets.{four, spell, packet as packet_of};
ghost use Rattle.packet.specs.Bodies.{first_kind, second_kind};
ghost use Rattle.packet.specs.Polynomials.{codes_down};
ghost use Rattle.packet.specs.Writing.{table as table_of, Written, WritesSetting, WritesOffer, SettingBack, OfferBack};

use super::body::Sort;
use super::table::TABLE;
use field::{Field, Refusal};
use poly::Poly;

// The count and the two entries of bodies of these lengths that follow one another.
fn table(sort: Sort, len1: u16, len2: u16) -> [u8; TABLE]
    requires { 11 + len1 < 65536 }
    ensures { result ≡ table_of (first_kind sort) (second_kind sort) len1 len2 }
{
    let (first, second) = sort.kinds();
    let [b1, b0] = len1.to_be_bytes();
    let [s1, s0] = (11 + len1).to_be_bytes();
    let [c1, c0] = len2.to_be_bytes();
    [
        2,
        first.into(),
        0,
        11,
        b1,
        b0,
        second.into(),
        s1,
        s0,
        c1,
        c0,
    ]
}

// Fills a body with codes: the last is the first to stand there, each as 32 bits, high byte first. It writes by place, since
// nothing is known of what `chunks_exact_mut` has lent once the loop is over.
fn put(codes: &[u32], body: &mut [u8])
    requires { length body.old ≡ 4 * length codes.now }
    ensures { body.new ≡ spell (reverse codes.now) }
{
    for (i, code) in codes.iter().rev().enumerate() {
        body[4 * i..4 * i + 4].copy_from_slice(&code.to_be_bytes());
    }
}

// Writes a packet of this sort whose bodies have these codes, the lowest first, and answers its length.
fn write(sort: Sort, first: &[u32], second: &[u32], out: &mut [u8]) -> Result<usize, Refusal>
    requires { (length first.now ≤ 128) × (length second.now ≤ 128) }
    ensures { Written (packet_of (first_kind sort) (second_kind sort) (spell (reverse first.now)) (spell (reverse second.now))) out.old out.new result }
{
    let (len1, len2) = (4 * first.len(), 4 * second.len());
    let len = TABLE + len1 + len2;
    if out.len() < len {
        return Err(Refusal::BufferTooSmall);
    }
    // no body is longer than 512 bytes, so the lengths fit
    let head: &[u8] = &table(sort, len1 as u16, len2 as u16);
    // the bodies begin where the table ends
    let start = head.len();
    out[..TABLE].copy_from_slice(head);
    put(first, &mut out[start..start + len1]);
    put(second, &mut out[start + len1..len]);
    Ok(len)
}

// Writes the setting packet of the field `f` and the polynomial `d`, and answers its length.
pub fn write_setting<F: Field>(f: &F, d: &Poly, out: &mut [u8]) -> Result<usize, Refusal>
    ensures bytes { Written (packet_of 1 2 (four (F.meaning f.now).size) (spell (codes_down d.now))) out.old out.new result }
    ensures values { WritesSetting (F.meaning f.now) d.now out.old out.new result }
    ensures back { IfOk result (λ n. SettingBack (F.meaning f.now) d.now (take n out.new)) }
{
    write(Sort::Setting, &[f.size()], d.codes(), out)
}

// Writes the offer of the ideal (`q`, `p`), and answers its length.
pub fn write_offer(q: &Poly, p: &Poly, out: &mut [u8]) -> Result<usize, Refusal>
    ensures bytes { Written (packet_of 3 4 (spell (codes_down q.now)) (spell (codes_down p.now))) out.old out.new result }
    ensures values { WritesOffer q.now p.now out.old out.new result }
    ensures back { IfOk result (λ n. OfferBack q.now p.now (take n out.new)) }
{
    write(Sort::Offer, q.codes(), p.codes(), out)
}
