//! Memory that a call is lent: filled before it, so that what it leaves alone can be told, and held against what should stand there behind it.
use crate::fields::Element;

pub(crate) fn fill<T: Element>(memory: &mut [T]) {
    for (i, element) in memory.iter_mut().enumerate() {
        *element = T::filler(i);
    }
}

// A call wrote that at the front of memory that was filled, and left the rest alone.
pub(crate) fn is_as_wanted<T: Element>(memory: &[T], written: &[T]) -> bool {
    memory.iter().enumerate().all(|(i, element)| {
        *element == written.get(i).copied().unwrap_or(T::filler(i))
    })
}
