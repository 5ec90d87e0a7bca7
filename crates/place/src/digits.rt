// The binary digits of a number that is given by bytes, the high byte first.
ghost use Rattle.std.specs.Prelude.{◌≡◌, ◌/◌, ◌%◌, ◌^◌, ◌<◌};
ghost use Rattle.rules.specs.Packets.{number};
ghost use Rattle.place.specs.Digits.{Through};

// Binary digit k of a byte, where digit 0 is the lowest.
fn digit(byte: u8, k: u32) -> u8
    requires { k < 8 }
    ensures { result ≡ byte / 2 ^ k % 2 }
{
    (byte >> k) % 2
}

// What one step for each digit, the highest first, makes of `start`.
pub(crate) fn fold_digits<T: Copy, S: Fn(T, u8) -> T>(bytes: &[u8], start: T, step: S) -> T
    requires { S.IsAlwaysCallable step }
    ensures { Through (S.post step) start (number bytes.now) result }
{
    let mut found = start;
    for byte in bytes {
        for k in (0..8u32).rev() {
            found = step(found, digit(*byte, k));
        }
    }
    found
}
