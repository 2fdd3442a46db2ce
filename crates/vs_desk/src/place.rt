// An attached place.
use crate::Way;

/// How a place is attached, and its stream of bytes.
#[derive(Drop)]
pub(crate) struct Place<S> {
    pub(crate) way: Way,
    pub(crate) path: String,
    pub(crate) stream: S,
}
