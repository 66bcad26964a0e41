// The cookies of renames.
ghost use Rattle.std.specs.Prelude.{◌≡◌};
ghost use Rattle.ov_base.specs.Cookies as cookies;

/// The cookie that the two events of the k-th rename share, for k from 1. It is never 0.
pub fn cookie_of(k: u64) -> u32
    ensures { result ≡ cookies.cookie_of k }
{
    (k.saturating_sub(1) % u64::from(u32::MAX)) as u32 + 1
}
