//! The laws of trees. The functions do nothing; their contracts say the laws.

ghost use Rattle.ctl_parse.specs.Read.{HasOneTree, ReadsBack, SpellsOneTree};

/// Says that a tree is read back from the node that it stands for, so no other tree stands for that node.
pub fn a_node_has_one_tree()
    ensures reads_back { ReadsBack }
    ensures one_tree { HasOneTree }
{}

/// Says that tokens spell at most one tree.
pub fn tokens_spell_one_tree()
    ensures { SpellsOneTree }
{}
