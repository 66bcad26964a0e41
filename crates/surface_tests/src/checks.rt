// What tests check. Each check is a call, since a proof takes longer over an assertion.
ghost use Rattle.std.specs.Prelude.{◌≡◌, true};

use std::hash::RandomState;
use std::process::Abort;
use std::random::RandomSource;

/// Ends the test, and tells this, unless a check came out so.
pub fn holds(rt: &impl Abort, check: bool, told: &str)
    ensures { check ≡ true }
{
    assert!(rt; check, "{told}");
}

/// Ends the test, and tells this, unless there are as many as are wanted.
pub fn counts(rt: &impl Abort, found: usize, wanted: usize, told: &str)
    ensures { found ≡ wanted }
{
    assert!(rt; found == wanted, "{told}: {found}, not {wanted}");
}

/// Adds bytes to others.
pub fn add(rt: &impl Abort, bytes: &mut Vec<u8>, more: &[u8]) {
    bytes.extend_from_slice(more).expect(rt, "memory");
}

/// Adds a text to another.
pub fn add_text(rt: &impl Abort, text: &mut String, more: &str) {
    text.push_str(more).expect(rt, "memory");
}

/// Keys for the tables of a test.
pub fn keys_of<H: RandomSource + Abort>(rt: &H) -> RandomState {
    RandomState::new(rt).expect(rt, "keys")
}
