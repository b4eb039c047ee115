//! Rows of a fixed length: they take no memory that can run out.

/// The first N of what is pushed. What comes behind them is not kept.
#[derive(Clone, Copy, Debug)]
pub struct Kept<T, const N: usize> {
    all: [T; N],
    count: usize,
}

impl<T: Copy + Default, const N: usize> Kept<T, N> {
    // made where it is to lie, and not handed back by value
    #[inline(always)]
    pub(crate) fn new() -> Kept<T, N> {
        Kept {
            all: [T::default(); N],
            count: 0,
        }
    }

    pub(crate) fn push(&mut self, one: T) {
        if let Some(slot) = self.all.get_mut(self.count) {
            *slot = one;
            self.count += 1;
        }
    }

    pub(crate) fn extend(&mut self, more: &[T]) {
        for one in more {
            self.push(*one);
        }
    }

    pub(crate) fn is_full(&self) -> bool {
        self.count >= N
    }

    pub(crate) fn as_slice(&self) -> &[T] {
        self.all.get(..self.count).unwrap_or(&self.all)
    }
}
