// The table of contents: each entry has five bytes, the kind, then start and length of the body, high byte first.
ghost use Rattle.std.specs.Prelude.{◌≡◌, ◌<◌, length, MatchOption};
ghost use Rattle.packet.specs.Bodies.{Entry};

// Bytes before the first body: the count of entries, and two entries.
pub(crate) const TABLE: usize = 11;

// The entry at the front of `table`: its kind, its place as the pair (start, length), and the rest of the table; `None` where
// there are fewer than five bytes.
// The pattern is the layout; the place stays two numbers, since it is no range before the reader has asked about it.
pub(crate) fn entry(table: &[u8]) -> Option<(u8, (u16, u16), &[u8])>
    ensures { MatchOption result (length table.now < 5) (λ e. Entry table.now e.0 e.1.0 e.1.1 e.2.now) }
{
    let [kind, s1, s0, l1, l0, rest @ ..] = table else {
        return None;
    };
    let start = u16::from_be_bytes([*s1, *s0]);
    let len = u16::from_be_bytes([*l1, *l0]);
    Some((*kind, (start, len), rest))
}
