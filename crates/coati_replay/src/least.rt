ghost use Rattle.std.specs.Prelude.{◌↔◌, Contains, IsTrue};
ghost use Rattle.coati_replay.specs.Least.{IsLeastCommon};

/// Whether a number is in a list.
pub(crate) fn has(numbers: &[u16], number: u16) -> bool
    ensures { IsTrue result ↔ Contains numbers.now number }
{
    numbers.contains(&number)
}

/// Whether a number is the least that two lists have in common.
pub(crate) fn is_least_common(left: &[u16], right: &[u16], number: u16) -> bool
    ensures { IsTrue result ↔ IsLeastCommon left.now right.now number }
{
    if !has(left, number) || !has(right, number) {
        return false;
    }
    for other in left {
        if *other < number && has(right, *other) {
            return false;
        }
    }
    true
}
