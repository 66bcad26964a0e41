// What a file of bytes is compared with, and what it is made of.
ghost use Rattle.std.specs.Prelude.{◌≡◌, ◌+◌, ◌^◌, ◌<◌, length, true};

use file_bytes::FileBytes;
use rand_core::utils::NextWord;
use rand_pcg::Pcg32;
use std::alloc::Global;
use std::process::Abort;

/// Ends the test, and tells this, unless a check came out so.
pub fn holds(rt: &impl Abort, check: bool, told: &str)
    ensures { check ≡ true }
{
    assert!(rt; check, "{told}");
}

/// A number below this one, or 0.
pub fn below(dice: &mut Pcg32, sides: usize) -> usize {
    (dice.next_word() as usize).checked_rem(sides).unwrap_or(0)
}

/// So many bytes that look random.
pub fn some_bytes(rt: &impl Abort, alloc: Global, dice: &mut Pcg32, count: usize) -> Vec<u8> {
    let mut bytes = Vec::with_capacity(alloc, count).expect(rt, "memory");
    for _ in 0..count {
        let byte = (dice.next_word() % 256) as u8;
        bytes.push(byte).expect(rt, "memory");
    }
    bytes
}

/// Lays bytes over those of a vector, which is filled with zero bytes where it ends before.
pub fn lay_plainly(rt: &impl Abort, plain: &mut Vec<u8>, start: usize, bytes: &[u8])
    requires { start + length bytes.now < 2 ^ 64 }
{
    let end = start + bytes.len();
    if plain.len() < end {
        plain.resize(end, 0).expect(rt, "memory");
    }
    plain[start..end].copy_from_slice(bytes);
}

/// The bytes of a file, so many at a time.
pub fn all_of(rt: &impl Abort, alloc: Global, file: &FileBytes, step: usize) -> Vec<u8> {
    let mut all = Vec::new(alloc);
    let steps = file.len().checked_div(step).unwrap_or(0);
    for k in 0..=steps {
        let place = k.wrapping_mul(step);
        file.append_to(place, step, &mut all).expect(rt, "memory");
    }
    all
}
