// What tests check. Each check is a call, since a proof takes longer over an assertion.
ghost use Rattle.std.specs.Prelude.{◌≡◌, true};

use std::hash::RandomState;
use std::process::Abort;
use std::random::RandomSource;

/// Ends the test, and tells this, unless a check came out so.
pub fn holds(rt: &impl Abort, check: bool, told: &str)
    ensures { check ≡ true }
{
    assert!(rt; check, "{told}");
}

/// Ends the test, and tells this, unless it is the number that is wanted.
pub fn is_number(rt: &impl Abort, found: u64, wanted: u64, told: &str)
    ensures { found ≡ wanted }
{
    assert!(rt; found == wanted, "{told}: {found}, not {wanted}");
}

/// Ends the test, and tells this, unless there are as many as are wanted.
pub fn counts(rt: &impl Abort, found: usize, wanted: usize, told: &str)
    ensures { found ≡ wanted }
{
    assert!(rt; found == wanted, "{told}: {found}, not {wanted}");
}

/// Adds an item to a list.
pub fn add<T: Drop>(rt: &impl Abort, list: &mut Vec<T>, item: T) {
    list.push(item).expect(rt, "memory");
}

/// Keys for the tables of a test.
pub fn keys_of<H: RandomSource + Abort>(rt: &H) -> RandomState {
    RandomState::new(rt).expect(rt, "keys")
}
