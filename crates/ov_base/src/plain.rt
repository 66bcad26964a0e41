// Runs of plain bytes: those that can stand in a name, neither `/` nor NUL.
ghost use Rattle.std.specs.Prelude.{◌≡◌, ◌&&◌, not, nat_eq};
ghost use Rattle.std.specs.List.{prefix_len};

use std::simd::prelude::*;

// How many bytes are tested at a time.
const LANES: usize = 8;

// How many of these bytes come before the first that is not plain.
fn run_in_block(block: &[u8; LANES]) -> usize
    ensures { result ≡ prefix_len (λ b. not (nat_eq b 47) && not (nat_eq b 0)) block.now }
{
    let lanes = u8x8::from_array(*block);
    let stops = lanes.simd_eq(u8x8::splat(b'/')) | lanes.simd_eq(u8x8::splat(0));
    (stops.to_bitmask().trailing_zeros() as usize).min(LANES)
}

// The same of fewer bytes, one at a time.
fn run_in_rest(rest: &[u8]) -> usize
    ensures { result ≡ prefix_len (λ b. not (nat_eq b 47) && not (nat_eq b 0)) rest.now }
{
    rest.iter().take_while(|b| **b != b'/' && **b != 0).count()
}

// How many bytes come before the first that is not plain.
pub(crate) fn plain_run(bytes: &[u8]) -> usize
    ensures { result ≡ prefix_len (λ b. not (nat_eq b 47) && not (nat_eq b 0)) bytes.now }
{
    let mut rest = bytes;
    'runs: while let Some((block, tail)) = rest.split_first_chunk::<LANES>() {
        let run = run_in_block(block);
        if run < LANES {
            return bytes.len() - rest.len() + run;
        }
        rest = tail;
    }
    bytes.len() - rest.len() + run_in_rest(rest)
}
