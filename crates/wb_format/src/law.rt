//! What holds of all spellings.

ghost use Rattle.std.specs.Prelude.{◌≡◌, ◌≢◌, ℕ, List, Option};
ghost use Rattle.wb_types.specs.declared.entry.Entry.{Entry};
ghost use Rattle.wb_format.specs.declared.root.Root.{Root};
ghost use Rattle.wb_format.specs.declared.node.Node.{Node};
ghost use Rattle.wb_format.specs.NodeWords.{SpellsEntry};
ghost use Rattle.wb_format.specs.Layout.{SpellsRoot, SpellsNode, IsValidIn};

/// A sector spells one root, which is so what is read after it was written; a root has one spelling; and two
/// roots that are valid in different slots have different generations.
pub fn root_law()
    ensures one_value { (sector : List ℕ) (a b : Root) → SpellsRoot sector a → SpellsRoot sector b → a ≡ b }
    ensures one_spelling { (s t : List ℕ) (root : Root) → SpellsRoot s root → SpellsRoot t root → s ≡ t }
    ensures one_generation { (s t : List ℕ) (a b : Root) → IsValidIn 0 s a → IsValidIn 1 t b
        → a.generation ≢ b.generation }
{}

/// A sector spells one node, which is so what is read after it was written, and a node has one spelling.
pub fn node_law()
    ensures one_value { (sector : List ℕ) (a b : Node) → SpellsNode sector a → SpellsNode sector b → a ≡ b }
    ensures one_spelling { (s t : List ℕ) (node : Node) → SpellsNode s node → SpellsNode t node → s ≡ t }
{}

/// A word of a leaf spells one entry or none, which is so what is read after it was written, and that has one
/// word.
pub fn word_law()
    ensures one_value { (word : ℕ) (a b : Option Entry) → SpellsEntry word a → SpellsEntry word b → a ≡ b }
    ensures one_spelling { (v w : ℕ) (entry : Option Entry) → SpellsEntry v entry → SpellsEntry w entry → v ≡ w }
{}
