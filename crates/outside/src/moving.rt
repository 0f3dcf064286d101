ghost use Rattle.std.specs.Prelude.{◌≡◌, ◌<◌, [], ◌++◌, length, take, drop, min};

/// Copies the front of `bytes` into the front of `buf`, and answers how many. Reads from memory are made of it.
#[tactic(auto, using(crate::proofs::MovedBytes::moved_front, crate::proofs::MovedBytes::no_length))]
pub fn copy_front(bytes: &[u8], buf: &mut [u8]) -> usize
    ensures count { result ≡ min (length buf.old) (length bytes.now) }
    ensures buffer { buf.new ≡ take result bytes.now ++ drop result buf.old }
    ensures front { bytes.now ≡ take result buf.new ++ drop result bytes.now }
    ensures same { take result buf.new ≡ take result bytes.now }
    ensures end { 0 < length buf.old → result ≡ 0 → bytes.now ≡ [] }
{
    let count = buf.len().min(bytes.len());
    buf[..count].copy_from_slice(&bytes[..count]);
    count
}
