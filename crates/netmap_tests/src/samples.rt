// What several tests use.
use questions::{Denial, Layer, Question};

pub(crate) fn denied<T>(question: Question, layer: Layer, place: usize) -> Result<T, Denial> {
    Err(Denial::new(question, layer, place))
}
