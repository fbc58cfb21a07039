//! What edits leave of a tree and of a mapping.

ghost use Rattle.wb_tree.specs.Edits.{OneEdit, EditsFollow, EditsAreStored, EditsTakeNoPlace, LeavesAbove, SetIsMapping, ClearIsMapping};

/// Edits of a tree by `set` and `clear`, any number of them (`IsEdited`, which both ensure): they follow one another;
/// sectors that stored the tree before store it after; and its nodes stand at no place at which none stood. One that
/// changes the entry of a cache block leaves the places that `Tree::places_above` told before it, and no others.
pub fn edit_law()
    ensures once { OneEdit }
    ensures follow { EditsFollow }
    ensures stored { EditsAreStored }
    ensures places { EditsTakeNoPlace }
    ensures leaves { LeavesAbove }
{}

/// The entries stay a mapping where one comes in that may, and where one goes.
pub fn mapping_law()
    ensures set { SetIsMapping }
    ensures clear { ClearIsMapping }
{}
