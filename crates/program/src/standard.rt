//! The three standard streams.

use desk_devices::Counted;

/// The three standard streams of a run. Their failures are counted, so that standard error can say why one of
/// the first two failed, and that a line of `serve` is dropped only where standard error fails.
#[derive(Drop)]
pub struct Streams<R, O, E> {
    pub input: Counted<R>,
    pub output: Counted<O>,
    pub error: Counted<E>,
}
