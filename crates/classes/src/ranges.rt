//! Membership by binary search over ranges.
ghost use Rattle.std.specs.Prelude.{◌≡◌, true};
ghost use Rattle.classes.specs.Ranges.{member, ordered};

// c is in a range: only the first range that ends at c or later can have it.
pub(crate) fn in_ranges(ranges: &[(u32, u32)], c: u32) -> bool
    requires { ordered ranges.now ≡ true }
    ensures { result ≡ member ranges.now c }
{
    let i = ranges.partition_point(|&(_, last)| last < c);
    ranges.get(i).is_some_and(|&(first, _)| first <= c)
}
