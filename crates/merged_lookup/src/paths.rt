// Copies of paths.
ghost use Rattle.std.specs.Prelude.{◌≡◌, IfOk, reverse};

use ov_base::{Name, Path};
use std::alloc::{AllocError, Global};

// The path of these names from the root.
pub(crate) fn path_of(alloc: Global, names: &[Name]) -> Result<Path, AllocError>
    ensures { IfOk result (λ path. path ≡ reverse names.now) }
{
    let mut path = Path::root(alloc);
    for name in names {
        path.push(name.clone()?)?;
    }
    Ok(path)
}
