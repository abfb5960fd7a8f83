// The byte form and single bits (document 01, "Steps, permutation and inverse"): bit i of a state is in byte i div 8 with weight 2 to the
// (7 - i mod 8). A buffer has as many bytes as b / 8, at most 32; its bits go into the first b of 256 cells.
// The library has no method for the bits of a byte.
ghost use Rattle.std.specs.Prelude.{◌≡◌, ◌*◌, ◌<◌, ◌≤◌, ◌++◌, drop, length};
ghost use Rattle.quark.specs.Bytes.{bits_of, byte_at, bytes_of};
ghost use Rattle.permutation.specs.leaf.Cells.{Cells};

// Writes the bits of a buffer into the first cells.
pub fn load(buffer: &[u8], bits: &mut [u8; 256])
    requires { 8 * length buffer.now ≤ 256 }
    ensures { bits.new ≡ bits_of (8 * length buffer.now) buffer.now ++ drop (8 * length buffer.now) bits.old }
{
    for (i, bit) in bits[..8 * buffer.len()].iter_mut().enumerate() {
        *bit = (buffer[i / 8] >> (7 - i % 8)) % 2;
    }
}

// Byte j of the cells: each bit goes after those before it, so that the first gets the weight 128.
fn byte_at(bits: &[u8; 256], j: usize) -> u8
    requires j_bound { j < 32 }
    requires cells { Cells bits.now }
    ensures { result ≡ byte_at bits.now j }
{
    let mut byte = 0;
    for bit in &bits[8 * j..8 * j + 8] {
        byte = byte * 2 + *bit;
    }
    byte
}

// The first bytes of the cells, as many as the buffer has.
pub fn store(bits: &[u8; 256], buffer: &mut [u8])
    requires buffer_bound { 8 * length buffer.old ≤ 256 }
    requires cells { Cells bits.now }
    ensures { buffer.new ≡ bytes_of (length buffer.old) bits.now }
{
    for (j, byte) in buffer.iter_mut().enumerate() {
        *byte = byte_at(bits, j);
    }
}
