//! What the sizes of a machine allow, whichever version its metadata are of.

ghost use Rattle.std.specs.Prelude.{◌≡◌, IfSome, is_some};
ghost use Rattle.wb_promise.specs.Happenings.{IsGeometryAsked, has_room_for, most_for};

use wb_types::{Geometry, Version};

/// The most nodes of an image of these sizes in either version, which is clean or not.
pub(crate) fn most_for(geometry: &Geometry, clean: bool) -> u32
    ensures { result ≡ most_for geometry.now clean }
{
    let nodes = geometry.node_count();
    if clean {
        nodes + geometry.dirty_node_count()
    } else {
        nodes
    }
}

/// The geometry that an opening asks for over metadata of these sizes, in the second version or not; none where they have no room for it.
pub(crate) fn geometry_asked(geometry: &Geometry, second: bool) -> Option<Geometry>
    ensures asked { IfSome result (λ asked. IsGeometryAsked geometry.now second asked) }
    ensures room { is_some result ≡ has_room_for second geometry.now }
{
    match Geometry::with_version(
        u64::from(geometry.block),
        u64::from(geometry.cache_blocks),
        u64::from(geometry.origin_blocks),
        u64::from(geometry.meta_sectors),
        Version::asked(second).number(),
    ) {
        Ok(asked) => Some(asked),
        Err(_) => None,
    }
}
