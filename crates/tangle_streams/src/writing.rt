//! Writing bytes to a sink, and counting them.
ghost use Rattle.tangle_streams.specs.Streams.{IsWrittenAfter};

use crate::failures::WriteFault;
use crate::sinks::Sink;

/// Writes the bytes, unless `so_far` is an error. Returns the total: the count in `so_far`, plus
/// the bytes written by this call.
///
/// # Errors
///
/// The error in `so_far`, or `WriteFault(n)` if the sink fails or takes no byte, where `n` is the
/// total of bytes written before.
pub fn write_after<S: Sink>(
    sink: &mut S,
    so_far: Result<u128, WriteFault>,
    bytes: &[u8],
) -> Result<u128, WriteFault>
    ensures { IsWrittenAfter (S.stream sink.old) (S.stream sink.new) so_far bytes.now result }
{
    // `so_far` is a `Result` so that calls can be chained: each `?` in a caller is one exit more
    // to prove.
    let mut count = so_far?;
    let mut rest = bytes;
    while !rest.is_empty() {
        match sink.take(rest) {
            None => return Err(WriteFault(count)),
            Some(n) => {
                if n == 0 {
                    return Err(WriteFault(count));
                }
                rest = &rest[n..];
                count = count.saturating_add(n as u128);
            }
        }
    }
    Ok(count)
}
