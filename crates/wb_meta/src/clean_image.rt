//! The image of a clean cache in metadata of the second version.

ghost use Rattle.std.specs.Prelude.{◌≡◌, true, Bool, List, drop, length, IfOk, IfErr};
ghost use Rattle.wb_types.specs.declared.refusal.Refusal.TheVariants.{Memory as OutOfMemory};
ghost use Rattle.wb_types.specs.declared.version.Version.TheVariants.{Two};
ghost use Rattle.wb_format.specs.Sizes.{IsTop};
ghost use Rattle.wb_tree.specs.Mapping.{Mapping};
ghost use Rattle.wb_tree.specs.Images.{ImagePlan, IsImage};
ghost use Rattle.wb_dirty.specs.Planning.{IsDirtyPlan};
ghost use Rattle.wb_meta.specs.CleanImages.{AreBitsOf, IsImageWithBits};

use crate::Image;
use wb_dirty::DirtyPlan;
use wb_format::Root;
use wb_types::Refusal;

/// The image of a tree with the dirty bits of a plan beside it: their nodes behind those of the tree, and a root that names their
/// top. `Memory` where there is no room for the nodes.
pub fn image_with_bits(image: Image, marks: DirtyPlan) -> Result<Image, Refusal>
    requires second { image.root.version ≡ Two }
    requires clean { image.root.clean ≡ true }
    requires top { IsTop image.root.geometry.meta_sectors marks.top }
    ensures image { IfOk result (λ whole. (bits : List Bool) (m n : Mapping) (plan : ImagePlan) → IsImage m n plan image
        → IsDirtyPlan bits plan.generation (drop (length image.nodes.items) plan.free) marks → AreBitsOf n.entries bits
        → IsImageWithBits bits m n plan whole) }
    ensures refused { IfErr result (λ refusal. refusal ≡ OutOfMemory) }
{
    let Image { root, mut nodes } = image;
    let DirtyPlan {
        nodes: mut behind,
        top,
    } = marks;
    nodes.append(&mut behind)?;
    let root = Root {
        generation: root.generation,
        version: root.version,
        clean: root.clean,
        geometry: root.geometry,
        top: root.top,
        top_dirty: top,
    };
    Ok(Image { root, nodes })
}
