// What a path shows by what was seen there, where that may be nothing.
ghost use Rattle.std.specs.Prelude.{◌≢◌, []};
ghost use Rattle.merged_lookup.specs.Merged.{parent, IsAnswer, IsStackOf, IsTopmost};

use make_remove::found_in;
use merged_lookup::{Found, Layers, Stack, Topmost};
use ov_base::Path;

// `found_in`, where something may be there or not.
pub(crate) fn answer_in(
    layers: &Layers,
    directory: &Stack,
    path: &Path,
    top: Option<Topmost>,
) -> Option<Found>
    requires directory { IsStackOf layers.now (parent path.now) directory.now }
    requires top { IsTopmost layers.now path.now top }
    requires below { path.now ≢ [] }
    ensures { IsAnswer layers.now path.now result }
{
    match top {
        Some(top) => Some(found_in(layers, directory, path, top)),
        None => None,
    }
}
