//! What the definition of standing says of every list of nodes.
ghost use Rattle.std.specs.Prelude.{◌≡◌, List};
ghost use Rattle.edif_spelling_spec.specs.Tree.{Placed};
ghost use Rattle.edif_tree.specs.Nodes.{NodeRow, IsAt};
ghost use Rattle.edif_tree.specs.declared.stored.NodeId.{NodeId};

/// One tree at most stands at a node.
pub fn one_tree_stands()
    ensures { (rows : List NodeRow) (id : NodeId) (s t : Placed) → IsAt rows id s → IsAt rows id t → s ≡ t }
{}
