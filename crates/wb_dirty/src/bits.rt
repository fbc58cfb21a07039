//! The bits of a leaf that is read.

ghost use Rattle.std.specs.Prelude.{◌≡◌, ◌<◌, ◌≤◌, ◌+◌, ◌*◌, ◌^◌, List, Ok, Err, OnOk, OnErr, IfErr, length};
ghost use Rattle.wb_types.specs.declared.refusal.Refusal.TheVariants.{Damaged};
ghost use Rattle.wb_types.specs.declared.number.Place.{Place as At};
ghost use Rattle.wb_bits.specs.BitWords.{is_member};
ghost use Rattle.wb_format.specs.declared.root.Root.{Root as RootValue};
ghost use Rattle.wb_dirty.specs.Reading.{Asked, bits_read};

use wb_bits::BitSet;
use wb_tree::PlacedNode;
use wb_types::Refusal;

/// How many cache blocks have their bits in a leaf.
const BITS: usize = 2048;

/// Takes the bits of a leaf into the set of dirty blocks. `Damaged` with the place of the leaf where a block has a bit and no entry;
/// what was taken before it stays.
pub(crate) fn take_bits(
    leaf: PlacedNode,
    words: &[u64; 32],
    mapped: &BitSet,
    dirty: &mut BitSet,
) -> Result<(), Refusal>
    requires { length dirty.old ≡ length mapped.now }
    ensures size { length dirty.new ≡ length dirty.old }
    ensures ok { OnOk result ((root : RootValue) (reached : List At) → bits_read (record { root = root; mapped = mapped.now }) leaf.place leaf.index words.now (record { reached = reached; dirty = dirty.old })
        ≡ Ok (record { reached = reached; dirty = dirty.new })) }
    ensures refused { IfErr result (λ refusal. refusal ≡ Damaged leaf.place) }
    ensures fault { OnErr result ((root : RootValue) (reached : List At) → bits_read (record { root = root; mapped = mapped.now }) leaf.place leaf.index words.now (record { reached = reached; dirty = dirty.old })
        ≡ Err leaf.place) }
{
    let first = BITS * leaf.index as usize;
    for k in 0..BITS {
        if is_set(words, k) {
            if !mapped.has(first + k) {
                return Err(Refusal::Damaged(leaf.place));
            }
            dirty.insert(first + k);
        }
    }
    Ok(())
}

/// Whether a bit of these words is set.
fn is_set(words: &[u64; 32], k: usize) -> bool
    requires { k < 2048 }
    ensures { result ≡ is_member words.now k }
{
    (words[k / 64] >> (k % 64)) & 1 == 1
}
