//! The root that an opening writes.

ghost use Rattle.std.specs.Prelude.{◌≡◌, ◌^◌, ◌+◌, [], IfOk, IfErr};
ghost use Rattle.wb_types.specs.declared.refusal.Refusal.TheVariants.{GenerationEnd as NoNextGeneration};
ghost use Rattle.wb_meta.specs.Openings.{IsOpening};

use crate::Image;
use std::alloc::Global;
use wb_format::Root;
use wb_types::Refusal;

/// The image that an opening commits: a root of the next generation, not clean, over the same tree, and no node, whatever
/// nodes the tree has. `GenerationEnd` where there is no next generation.
///
/// It takes no memory, and `CommitSteps::root_alone` begins its commit at the root.
pub fn opening_image(global: Global, root: &Root) -> Result<Image, Refusal>
    ensures image { IfOk result (λ image. IsOpening image root.now) }
    ensures refused { IfErr result (λ refusal. (refusal ≡ NoNextGeneration) × (root.now.generation + 1 ≡ 2 ^ 64)) }
{
    let Some(generation) = root.generation.checked_add(1) else {
        return Err(Refusal::GenerationEnd);
    };
    let root = Root {
        generation,
        version: root.version,
        clean: false,
        geometry: root.geometry,
        top: root.top,
        top_dirty: None,
    };
    Ok(Image {
        root,
        nodes: Vec::new(global),
    })
}
