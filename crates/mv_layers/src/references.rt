//! The references between layers, from the flags that are coded of them.

ghost use Rattle.std.specs.Prelude.{◌≡◌, get_or};
ghost use Rattle.mv_syntax.specs.Words.{is_set};
ghost use Rattle.mv_layers.specs.References.{depends, independent};

use crate::coded::LayerDependencies;

/// Whether the flag at a place is set; beyond the last it isn't.
pub(crate) fn set_at(flags: &[u8], j: usize) -> bool
    ensures { result ≡ is_set (get_or flags.now j 0) }
{
    match flags.get(j) {
        Some(flag) => *flag == 1,
        None => false,
    }
}

/// Whether the layer of index i refers directly to that of index j. The flags are those of the layers from index 1 on.
pub fn depends(flags: &[LayerDependencies], i: usize, j: usize) -> bool
    ensures { result ≡ depends flags.now i j }
{
    if i == 0 {
        return false;
    }
    match flags.get(i - 1) {
        Some(row) => set_at(&row.direct_dependency_flag, j),
        None => false,
    }
}

/// Whether the layer of index i has no direct reference layer. The flags are those of the layers from index 1 on.
pub fn independent(flags: &[LayerDependencies], i: usize) -> bool
    ensures { result ≡ independent flags.now i }
{
    for j in 0..i {
        if depends(flags, i, j) {
            return false;
        }
    }
    true
}
