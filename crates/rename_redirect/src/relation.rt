// How two paths stand to each other.
ghost use Rattle.std.specs.Prelude.{◌≡◌};
ghost use Rattle.plain_model.specs.Layers as held;
ghost use Rattle.plain_model.specs.Machine as machine;

use ov_base::Path;

// Whether two paths are the same.
pub(crate) fn same_path(path: &Path, other: &Path) -> bool
    ensures { result ≡ held.same_path path.now other.now }
{
    path.names() == other.names()
}

// Whether the other path leads below the path.
pub(crate) fn is_below(path: &Path, other: &Path) -> bool
    ensures { result ≡ machine.is_below path.now other.now }
{
    let length = path.names().len();
    length < other.names().len() && &other.names()[..length] == path.names()
}
