//! What tests compare: so each proof of a test sees one call, and not what is told of a failure.
use std::fmt::Debug;
use std::process::Abort;

// Ends a test, and tells in which case something else was found.
fn fail(rt: &impl Abort, found: &impl Debug, want: &impl Debug, case: &impl Debug) -> ! {
    panic!(rt; "found {found:?} and not {want:?} in the case {case:?}")
}

/// What was found is what is wanted, in this case.
pub(crate) fn same<T, C>(rt: &impl Abort, found: T, want: T, case: C)
where
    T: Copy + Debug + PartialEq,
    C: Copy + Debug,
{
    if found != want {
        fail(rt, &found, &want, &case);
    }
}

/// The same of bytes.
pub(crate) fn same_bytes<C>(rt: &impl Abort, found: &[u8], want: &[u8], case: C)
where
    C: Copy + Debug,
{
    if found != want {
        fail(rt, &found, &want, &case);
    }
}

/// This is so, in this case.
pub(crate) fn holds<C>(rt: &impl Abort, is_so: bool, case: C)
where
    C: Copy + Debug,
{
    if !is_so {
        fail(rt, &is_so, &true, &case);
    }
}
