ghost use Rattle.std.specs.Prelude.{◌≡◌, true};

use std::fmt::Debug;
use std::process::Abort;

/// Ends the test where it was told something else than it wanted.
pub(crate) fn same<R: Abort, T: PartialEq + Debug + Drop>(rt: &R, told: T, wanted: T) {
    assert_eq!(rt; told, wanted);
}

/// Ends the test where this is not so.
pub(crate) fn holds<R: Abort>(rt: &R, told: bool)
    ensures { told ≡ true }
{
    assert!(rt; told);
}
