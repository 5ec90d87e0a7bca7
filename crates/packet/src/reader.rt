// The reader of packets: it puts the questions of a packet in their order, and gives the bodies out as parts of the packet.
ghost use Rattle.std.specs.Prelude.{◌≡◌, IfOk};
ghost use Rattle.rules.specs.Questions.{Answered, answer_of};
ghost use Rattle.rules.specs.Packets.{packet_asks, packet as packet_of};
ghost use Rattle.packet.specs.Bodies.{first_kind, second_kind, bytes_of, Parts};

use super::body::{Body, Sort};
use super::table::{TABLE, entry};
use field::Refusal;

// The two bodies of a packet of this sort, each the part of the packet at the place that its entry names. Accepted bytes are
// exactly what the writer makes of these bodies, so no two packets carry the same contents.
pub fn read<'a>(sort: Sort, packet: &'a [u8]) -> Result<(Body<'a>, Body<'a>), Refusal>
    ensures answers { Answered (packet_asks (first_kind sort) (second_kind sort) packet.now) (answer_of result) }
    ensures parts { IfOk result (λ b. Parts sort packet.now b.0 b.1) }
    ensures whole { IfOk result (λ b. packet.now ≡ packet_of (first_kind sort) (second_kind sort) (bytes_of b.0) (bytes_of b.1)) }
{
    let [count, table @ ..] = packet else {
        return Err(Refusal::PacketTooShort);
    };
    let (kind1, (start1, len1), table) = entry(table).ok_or(Refusal::PacketTooShort)?;
    let (kind2, (start2, len2), _) = entry(table).ok_or(Refusal::PacketTooShort)?;
    if *count != 2 {
        return Err(Refusal::WrongCount);
    }
    let (first, second) = sort.kinds();
    if kind1 != u8::from(first) || kind2 != u8::from(second) {
        return Err(Refusal::WrongKinds);
    }
    let (start1, len1) = (usize::from(start1), usize::from(len1));
    let (start2, len2) = (usize::from(start2), usize::from(len2));
    if start1 != TABLE || start2 != start1 + len1 || packet.len() != start2 + len2 {
        return Err(Refusal::WrongLayout);
    }
    let first = Body::new(first, &packet[start1..start1 + len1]);
    let second = Body::new(second, &packet[start2..start2 + len2]);
    Ok((first, second))
}
