//! What blocks keep. Each law is the contract of a function that does nothing.
//! What the trees of Refs keep. Each law is the contract of a function that does nothing.
ghost use Rattle.pi_store_blocks.specs.Block.{BlocksReadBack, BlocksOutlast, BlocksComeBack, BlocksSayNothing};
ghost use Rattle.pi_store_blocks.specs.Numbers.{MovedComeBack, HalvesAreWhole};
ghost use Rattle.pi_store_blocks.specs.ListLaws.{ListsReadBack, ListsOutlast, ListsComeBack, NodesSayNothing};
ghost use Rattle.pi_store_blocks.specs.Domain.{DomainsReadBack, DomainsAreDomains};
ghost use Rattle.pi_store_blocks.specs.Constraint.{ConstraintsReadBack};
ghost use Rattle.pi_store_blocks.specs.Agent.{AgentsReadBack, AgentsOutlast};
ghost use Rattle.pi_store_blocks.specs.Heap.{TreesStay, TreesSpeakBelow};
ghost use Rattle.pi_store_blocks.specs.Placed.{RefsHaveTrees, TreesAreRefs, RefsStay};
ghost use Rattle.pi_store_blocks.specs.Past.{HeapsGrow};
ghost use Rattle.pi_store_blocks.specs.Right.{RightIsHistory, RightRefsHaveTrees, RightTreesAreRefs, RightByUndo, RightByWrites, RightByWord, RightByPush, RightByReplace, RightByNames};
ghost use Rattle.pi_store_blocks.specs.Bound.{BoundHaveTrees, BoundAreRefs, BoundByUndo, BoundByWords, BoundByNew, BoundByPush, BoundByReplace, BoundByBinding, BoundByDomain, BoundByNames};
ghost use Rattle.pi_store_blocks.specs.NameTable.{NamesStay};

/// A block that was written reads back; it is the same behind whatever calls follow, and after a return to any length at or behind
/// its end. Its words are no Refs, and say nothing of the words below them.
pub fn blocks_stay()
    ensures read_back { BlocksReadBack }
    ensures outlast { BlocksOutlast }
    ensures come_back { BlocksComeBack }
    ensures say_nothing { BlocksSayNothing }
{}

/// Numbers read back from what a block holds of them.
pub fn numbers_read_back()
    ensures moved { MovedComeBack }
    ensures halves { HalvesAreWhole }
{}

/// The list of a node that was written has its number and what its two lists have; a list has the same numbers behind whatever calls
/// follow, and after a return to any length at or behind its end. The words of a node are no Refs, and say nothing of the words below them.
pub fn lists_stay()
    ensures read_back { ListsReadBack }
    ensures outlast { ListsOutlast }
    ensures come_back { ListsComeBack }
    ensures say_nothing { NodesSayNothing }
{}

/// A domain reads back from its bounds; and whatever is read is a domain. It is the contract of a function that does nothing.
pub fn domains_read_back()
    ensures back { DomainsReadBack }
    ensures domains { DomainsAreDomains }
{}

/// A constraint within its limits, of variables below 2^58, reads back from its numbers. It is the contract of a function
/// that does nothing.
pub fn constraints_read_back()
    ensures { ConstraintsReadBack }
{}

/// An agent that was written reads back, and is the same behind whatever calls follow. It is the contract of a function that
/// does nothing.
pub fn agents_stay()
    ensures read_back { AgentsReadBack }
    ensures outlast { AgentsOutlast }
{}

/// A Ref that has a tree has it still when there are more names, more variables and more words.
pub fn trees_stay()
    ensures { TreesStay }
{}

/// A Ref that has a tree has one in which only variables occur that were made.
pub fn trees_speak_below()
    ensures { TreesSpeakBelow }
{}

/// A Ref is one still when there is more.
pub fn refs_stay()
    ensures { RefsStay }
{}

/// Where each word was right when it was written, each Ref whose variable was made, whose atom has a name and that points
/// to what is there has a tree; and no other number has one.
pub fn refs_have_trees()
    ensures have { RefsHaveTrees }
    ensures only { TreesAreRefs }
{}

/// Where each word was right when it was written, just the Refs have trees, and each change and each return keeps that.
pub fn words_stay_right()
    ensures grow { HeapsGrow }
    ensures history { RightIsHistory }
    ensures have_trees { RightRefsHaveTrees }
    ensures are_refs { RightTreesAreRefs }
    ensures undo { RightByUndo }
    ensures writes { RightByWrites }
    ensures word { RightByWord }
    ensures push { RightByPush }
    ensures replace { RightByReplace }
    ensures names { RightByNames }
{}

/// What variables are bound to has a tree, blocks of their domains stand in the region, and each change and each return keeps that.
pub fn bindings_stay_right()
    ensures have_trees { BoundHaveTrees }
    ensures are_refs { BoundAreRefs }
    ensures undo { BoundByUndo }
    ensures words { BoundByWords }
    ensures new { BoundByNew }
    ensures push { BoundByPush }
    ensures replace { BoundByReplace }
    ensures binding { BoundByBinding }
    ensures domain { BoundByDomain }
    ensures names { BoundByNames }
{}

/// What terms of a region may have as a name, those of a longer one may have.
pub fn names_stay()
    ensures { NamesStay }
{}
