// The flags of opens.
ghost use Rattle.std.specs.Prelude.{◌≡◌};
ghost use Rattle.ov_frames.specs.Flags as bits;

use ov_base::OpenFlags;

/// The flags of a byte: two bits of access, and one bit for each other flag.
pub(crate) fn flags_of(flags: u8) -> OpenFlags
    ensures { result ≡ bits.flags_of flags }
{
    let access = flags % 4;
    OpenFlags {
        reads: access == 0 || access == 2,
        writes: access == 1 || access == 2,
        create: flags / 4 % 2 == 1,
        exclusive: flags / 8 % 2 == 1,
        truncate: flags / 16 % 2 == 1,
        append: flags / 32 % 2 == 1,
        directory: flags / 64 % 2 == 1,
        unknown: flags / 128 % 2 == 1,
    }
}
