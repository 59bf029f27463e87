ghost use Rattle.std.specs.Prelude.{◌≡◌};
ghost use Rattle.std.specs.Fn.{FnReturnsAt};
ghost use Rattle.task_check.specs.Least.{least, lesser, unless};
ghost use Rattle.task_check.specs.Within.{IsLeastAmong};

/// The lesser of two places, of which there may be none.
pub(crate) fn lesser(one: Option<u32>, other: Option<u32>) -> Option<u32>
    ensures { result ≡ lesser one other }
{
    match (one, other) {
        (Some(one), Some(other)) => Some(one.min(other)),
        (None, other) => other,
        (one, None) => one,
    }
}

/// The place, unless the test holds.
pub(crate) fn place_unless(holds: bool, at: u32) -> Option<u32>
    ensures { result ≡ least (unless holds at) }
{
    if holds { None } else { Some(at) }
}

/// The least of the places that `place` gives of the elements.
pub(crate) fn least_among<T, F: Fn(&T) -> Option<u32>>(elements: &[T], place: F) -> Option<u32>
    requires { F.IsAlwaysCallable place }
    ensures { IsLeastAmong (FnReturnsAt F.Fn place) elements.now result }
{
    let mut found = None;
    for element in elements {
        found = lesser(found, place(element));
    }
    found
}
