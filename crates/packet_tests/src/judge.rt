// A second reader of packets, written another way: it asks every question of every string of bytes, whatever the others answer,
// and goes from the last question to the first, so that the first with the answer no has the last word. It reads bytes by their
// place, as 0 past the end, and refuses by number.

fn byte(x: &[u8], i: usize) -> u8 {
    x.get(i).copied().unwrap_or(0)
}

// The number of two bytes.
fn wide(x: &[u8], i: u8) -> u16 {
    let i = usize::from(i);
    u16::from_be_bytes([byte(x, i), byte(x, i + 1)])
}

// The number of the four bytes from `i` on.
fn number(x: &[u8], i: u16) -> u32 {
    let i = usize::from(i);
    u32::from_be_bytes([byte(x, i), byte(x, i + 1), byte(x, i + 2), byte(x, i + 3)])
}

// The questions of a packet with the kinds `k` and `l`.
pub fn packet(k: u8, l: u8, x: &[u8]) -> Result<(), u16> {
    let end = u32::from(wide(x, 2)) + u32::from(wide(x, 4));
    let mut answer = Ok(());
    if wide(x, 2) != 11
        || u32::from(wide(x, 7)) != end
        || x.len() != usize::from(wide(x, 7)) + usize::from(wide(x, 9))
    {
        answer = Err(13);
    }
    if byte(x, 1) != k || byte(x, 6) != l {
        answer = Err(12);
    }
    if byte(x, 0) != 2 {
        answer = Err(11);
    }
    if x.len() < 11 {
        answer = Err(10);
    }
    answer
}

// The questions of the polynomial's body at a place of the bytes. A code is looked at when its last byte has come.
pub fn body(q: u32, x: &[u8], start: u16, len: u16) -> Result<(), u16> {
    let mut code: u32 = 0;
    let mut large = false;
    let mut lead = len < 4;
    for i in 0..len {
        let b = byte(x, usize::from(start) + usize::from(i));
        code = code % 16777216 * 256 + u32::from(b);
        large = large || (i % 4 == 3 && code >= q);
        lead = lead || (i < 4 && b > 0);
    }
    if len % 4 != 0 {
        Err(14)
    } else if large {
        Err(15)
    } else if !lead {
        Err(16)
    } else {
        Ok(())
    }
}

// The questions of a setting packet, its size and D's body.
pub fn setting(q: u32, x: &[u8]) -> Result<(), u16> {
    let d = body(q, x, wide(x, 7), wide(x, 9));
    let size = if wide(x, 4) != 4 || number(x, wide(x, 2)) != q {
        Err(20)
    } else {
        Ok(())
    };
    packet(1, 2, x).and(size).and(d)
}

// The questions of an offer, Q's body and P's.
pub fn offer(q: u32, x: &[u8]) -> Result<(), u16> {
    let second = body(q, x, wide(x, 7), wide(x, 9));
    let first = body(q, x, wide(x, 2), wide(x, 4));
    packet(3, 4, x).and(first).and(second)
}
