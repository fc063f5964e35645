//! Buffers of a caller.

ghost use Rattle.std.specs.Prelude.{◌≡◌};
ghost use Rattle.magbelu_c.specs.CallAnswers.{shown};

/// Puts items at the front of a buffer if they fit.
pub(crate) fn show<T: Copy>(items: &[T], buffer: &mut [T])
    ensures { buffer.new ≡ shown items.now buffer.old }
{
    if items.len() <= buffer.len() {
        buffer[..items.len()].copy_from_slice(items);
    }
}
