//! Where each item stands in a list.
ghost use Rattle.std.specs.Prelude.{◌≡◌, ◌<◌, ◌≤◌, get_or, None};
ghost use Rattle.std.specs.Option.{is_some};
ghost use Rattle.planner.specs.inner.Seats as S;

// Of each item its index in the list, and how many words have their seats.
// An array with room for every item that there can be, for there is no heap.
#[derive(Drop)]
pub struct Seats {
    pub index: [Option<u8>; 256],
    pub end: usize,
}

// Whether an item has its seat.
fn is_seated(index: &[Option<u8>; 256], x: usize) -> bool
    requires { x < 256 }
    ensures { result ≡ is_some (get_or index.now x None) }
{
    index[x].is_some()
}

// Words get their seats, up to the first that is n or more or repeats an item.
pub(crate) fn seat(list: &[u32], n: usize) -> Seats
    requires { n ≤ 256 }
    ensures { S.Filled n list.now result }
{
    let mut index = [None; 256];
    for k in 0..list.len() {
        let x = list[k] as usize;
        if n <= x || is_seated(&index, x) {
            return Seats { index, end: k };
        }
        index[x] = Some(k as u8);
    }
    Seats {
        index,
        end: list.len(),
    }
}
