use std::fmt::Debug;
use std::process::Abort;

// What is found is what is expected, in the case of this number. One function says it for all, since an assertion costs the check
// some seconds wherever it stands, and a call next to nothing.
pub(crate) fn same<T: PartialEq + Debug + Drop>(
    rt: &impl Abort,
    found: T,
    expected: T,
    case: usize,
) {
    assert_eq!(rt; found, expected, "case {case}");
}
