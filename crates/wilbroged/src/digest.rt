// The whole digest for a C host.
ghost use Rattle.std.specs.Prelude.{◌≡◌};
ghost use Rattle.refusals.specs.Outcome.{number_of};
ghost use Rattle.sponge.specs.Outcomes.{digest_outcome, digest_bytes};

use refusals::number_of;

// Writes the digest of the first `bit_count` bits of the message to the buffer. 0; or the number of the first of lines 1, 4, 5, 6, 7 and 8
// that holds, and the buffer is untouched.
#[unsafe(no_mangle)]
pub extern "C" fn quark_digest(
    instance: u32,
    width: u32,
    message: &[u8],
    bit_count: u64,
    digest: &mut [u8],
) -> u32
    ensures number { result ≡ number_of (digest_outcome instance width message.now bit_count digest.old) }
    ensures bytes { digest.new ≡ digest_bytes instance width message.now bit_count digest.old }
{
    number_of(sponge::digest(instance, width, message, bit_count as usize, digest))
}
