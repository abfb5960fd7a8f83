// Parts of a message that start at any bit.
ghost use Rattle.std.specs.Prelude.{◌+◌, ◌≤◌, ◌<◌};

// The weight of bit i in its byte: 2 to the (7 - i).
fn weight(i: usize) -> u8 {
    128 >> (i % 8)
}

// Whether bit i of the message is 1.
fn bit(message: &[u8; 9], i: usize) -> bool
    requires { i < 72 }
{
    message[i / 8] & weight(i) != 0
}

// Bytes whose first `count` bits are those of the message from bit `from` on. All bits after them are 1: a piece ignores them.
pub fn part(message: &[u8; 9], from: usize, count: usize) -> [u8; 9]
    requires { from + count ≤ 72 }
{
    let mut bytes = [255u8; 9];
    for i in 0..count {
        if !bit(message, from + i) {
            bytes[i / 8] ^= weight(i);
        }
    }
    bytes
}
