//! The sizes of a cache.

ghost use Rattle.std.specs.Bool.{OnTrue, OnFalse};
ghost use Rattle.std.specs.Prelude.{◌≡◌, ◌≤◌, ◌+◌, ◌*◌, ◌^◌, ℕ, IfOk, IfErr};
ghost use Rattle.wb_types.specs.declared.version.Version.TheVariants.{One};
ghost use Rattle.wb_types.specs.Limits.{IsWithinLimits, HasRoom, IsDepth, depth_of, dirty_depth_of, dirty_node_count, dirty_nodes, most_nodes, node_count, nodes_up_to};
ghost use Rattle.wb_types.specs.Versions.{version_asked, version_number};

use crate::{Refusal, Version};

/// The sizes of a cache and its devices, always within the limits, and the version of its metadata.
#[derive(Clone, Copy, PartialEq, Eq)]
pub struct Geometry {
    /// Sectors of a block: 64 to 2,097,152, a multiple of 64.
    pub block: u32,
    /// Blocks of the cache device: 1 to 1,048,575.
    pub cache_blocks: u32,
    /// Blocks of the origin: 1 to 1,048,576.
    pub origin_blocks: u32,
    /// Sectors of the metadata device: two root slots, twice the nodes of a full mapping and, in version 2, once those of
    /// its dirty bits, or more.
    pub meta_sectors: u32,
    /// The layout in which the metadata device is written. Sizes alone are compared with those of devices.
    pub version: Version,
    pub ghost within: { IsWithinLimits block cache_blocks origin_blocks meta_sectors },
    pub ghost room: { HasRoom version cache_blocks meta_sectors },
}

impl Geometry {
    /// The geometry of these sizes, the block and the metadata device in sectors, the others in blocks, with metadata of
    /// the first version; `Geometry` exactly where they lie outside the limits.
    pub fn new(
        block: u64,
        cache_blocks: u64,
        origin_blocks: u64,
        meta_sectors: u64,
    ) -> Result<Geometry, Refusal>
        ensures block { IfOk result (λ g. g.block ≡ block) }
        ensures cache_blocks { IfOk result (λ g. g.cache_blocks ≡ cache_blocks) }
        ensures origin_blocks { IfOk result (λ g. g.origin_blocks ≡ origin_blocks) }
        ensures meta_sectors { IfOk result (λ g. g.meta_sectors ≡ meta_sectors) }
        ensures version { IfOk result (λ g. g.version ≡ One) }
        ensures refused { IfErr result (λ r. r ≡ Refusal.Geometry) }
        ensures outside { IfErr result (λ _. ¬ IsWithinLimits block cache_blocks origin_blocks meta_sectors) }
    {
        let sizes_fit = (64..=2_097_152).contains(&block)
            && block % 64 == 0
            && (1..=1_048_575).contains(&cache_blocks)
            && (1..=1_048_576).contains(&origin_blocks)
            && meta_sectors <= 4_294_967_295;
        if !sizes_fit || meta_sectors < 2 + 2 * u64::from(count_nodes(cache_blocks as u32)) {
            return Err(Refusal::Geometry);
        }
        Ok(Geometry {
            block: block as u32,
            cache_blocks: cache_blocks as u32,
            origin_blocks: origin_blocks as u32,
            meta_sectors: meta_sectors as u32,
            version: Version::One,
        })
    }

    /// The geometry of these sizes, as `new` takes them, with metadata of the version that has this number; `Geometry`
    /// exactly where no version has it, and where the sizes lie outside the limits or give that version too little room.
    pub fn with_version(
        block: u64,
        cache_blocks: u64,
        origin_blocks: u64,
        meta_sectors: u64,
        version: u32,
    ) -> Result<Geometry, Refusal>
        ensures blocks { IfOk result (λ g. (g.block ≡ block) × (g.cache_blocks ≡ cache_blocks) × (g.origin_blocks ≡ origin_blocks)) }
        ensures meta_sectors { IfOk result (λ g. g.meta_sectors ≡ meta_sectors) }
        ensures version { IfOk result (λ g. version ≡ version_number g.version) }
        ensures refused { IfErr result (λ r. r ≡ Refusal.Geometry) }
        ensures outside { IfErr result (λ _. (v : Version) → version ≡ version_number v →
            IsWithinLimits block cache_blocks origin_blocks meta_sectors → ¬ HasRoom v cache_blocks meta_sectors) }
    {
        let Some(version) = Version::of(version) else {
            return Err(Refusal::Geometry);
        };
        let sizes = Geometry::new(block, cache_blocks, origin_blocks, meta_sectors)?;
        if !sizes.has_room(version) {
            return Err(Refusal::Geometry);
        }
        let Geometry {
            block,
            cache_blocks,
            origin_blocks,
            meta_sectors,
            ..
        } = sizes;
        Ok(Geometry {
            block,
            cache_blocks,
            origin_blocks,
            meta_sectors,
            version,
        })
    }

    /// The geometry of a cache over devices of these sizes in sectors, with metadata of version 2 or of the first; `Geometry`
    /// exactly where they lie outside the limits, give that version too little room, or the cache or the origin is not of
    /// whole blocks.
    pub fn of_devices(
        block: u64,
        metadata: u64,
        cache: u64,
        origin: u64,
        metadata2: bool,
    ) -> Result<Geometry, Refusal>
        ensures version { IfOk result (λ g. g.version ≡ version_asked metadata2) }
        ensures block { IfOk result (λ g. g.block ≡ block) }
        ensures metadata { IfOk result (λ g. g.meta_sectors ≡ metadata) }
        ensures cache { IfOk result (λ g. g.cache_blocks * block ≡ cache) }
        ensures origin { IfOk result (λ g. g.origin_blocks * block ≡ origin) }
        ensures refused { IfErr result (λ r. r ≡ Refusal.Geometry) }
        ensures outside { IfErr result (λ _. (cache_blocks origin_blocks : ℕ) → cache_blocks * block ≡ cache →
            origin_blocks * block ≡ origin → IsWithinLimits block cache_blocks origin_blocks metadata →
            ¬ HasRoom (version_asked metadata2) cache_blocks metadata) }
    {
        if block == 0 || cache % block != 0 || origin % block != 0 {
            return Err(Refusal::Geometry);
        }
        Geometry::with_version(
            block,
            cache / block,
            origin / block,
            metadata,
            Version::asked(metadata2).number(),
        )
    }

    /// Whether the metadata device has room for metadata of this version.
    fn has_room(&self, version: Version) -> bool
        ensures room { OnTrue result (HasRoom version self.now.cache_blocks self.now.meta_sectors) }
        ensures no_room { OnFalse result (¬ HasRoom version self.now.cache_blocks self.now.meta_sectors) }
    {
        let dirty = count_dirty_nodes(version, self.cache_blocks);
        let least = 2 + 2 * u64::from(count_nodes(self.cache_blocks)) + u64::from(dirty);
        u64::from(self.meta_sectors) >= least
    }

    /// The levels of the mapping tree, 1 to 4.
    pub fn depth(&self) -> u32
        ensures value { result ≡ depth_of self.now.cache_blocks }
        ensures depth { IsDepth self.now.cache_blocks result }
        ensures at_most { result ≤ 4 }
    {
        levels(self.cache_blocks)
    }

    /// The nodes of a mapping tree with an entry in every leaf: no image uses more places.
    pub fn node_count(&self) -> u32
        ensures value { result ≡ node_count self.now.cache_blocks }
        ensures two_images_fit { 2 + 2 * result ≤ self.now.meta_sectors }
    {
        count_nodes(self.cache_blocks)
    }

    /// The levels of a tree of dirty bits, 1 to 3.
    pub fn dirty_depth(&self) -> u32
        ensures value { result ≡ dirty_depth_of self.now.cache_blocks }
        ensures at_most { result ≤ 3 }
    {
        levels(self.cache_blocks.div_ceil(64))
    }

    /// The nodes of a tree of dirty bits with a bit in every leaf.
    pub fn dirty_node_count(&self) -> u32
        ensures { result ≡ dirty_node_count self.now.cache_blocks }
    {
        count_nodes(self.cache_blocks.div_ceil(64))
    }

    /// The most nodes of an image of this geometry, which is clean or not.
    pub fn most_nodes(&self, clean: bool) -> u32
        ensures { result ≡ most_nodes self.now.version clean self.now.cache_blocks }
    {
        if clean {
            count_nodes(self.cache_blocks) + count_dirty_nodes(self.version, self.cache_blocks)
        } else {
            count_nodes(self.cache_blocks)
        }
    }

    /// The sectors of the origin.
    pub fn origin_sectors(&self) -> u64
        ensures { result ≡ self.now.block * self.now.origin_blocks }
    {
        u64::from(self.block) * u64::from(self.origin_blocks)
    }

    /// The sectors of the cache device.
    pub fn cache_sectors(&self) -> u64
        ensures { result ≡ self.now.block * self.now.cache_blocks }
    {
        u64::from(self.block) * u64::from(self.cache_blocks)
    }
}

/// The least number of levels of 32 words a node that hold so many words, each of a cache block or of 64 dirty bits.
fn levels(cache_blocks: u32) -> u32
    requires { cache_blocks ≤ 1048576 }
    ensures value { result ≡ depth_of cache_blocks }
    ensures depth { IsDepth cache_blocks result }
    ensures at_most { result ≤ 4 }
{
    if cache_blocks <= 32 {
        1
    } else if cache_blocks <= 1024 {
        2
    } else if cache_blocks <= 32_768 {
        3
    } else {
        4
    }
}

/// The nodes of all levels above so many words.
fn count_nodes(cache_blocks: u32) -> u32
    requires { cache_blocks ≤ 1048576 }
    ensures value { result ≡ node_count cache_blocks }
    ensures at_most { result ≤ 4194308 }
{
    let depth = levels(cache_blocks);
    let mut span = 1;
    let mut nodes = 0;
    for _ in 0..depth {
        span *= 32;
        nodes += cache_blocks.div_ceil(span);
    }
    nodes
}

/// The nodes of dirty bits that an image of this version has at most.
fn count_dirty_nodes(version: Version, cache_blocks: u32) -> u32
    requires { cache_blocks ≤ 1048576 }
    ensures value { result ≡ dirty_nodes version cache_blocks }
    ensures at_most { result ≤ 4194308 }
{
    match version {
        Version::One => 0,
        Version::Two => count_nodes(cache_blocks.div_ceil(64)),
    }
}
