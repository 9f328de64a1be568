//! Laws of links, pairs and phases, in the words of the field. Each function does nothing; its contract is the law.

ghost use Rattle.racp_links.specs.Laws.{LinksArePrecedence, FirstWrongIsTold, LeafLinksAreLinks, NumberedLinksAreLinks, EachTaskHasLeaf, FirstUnspreadIsTold};

/// Starts of the tasks keep all links exactly if there are starts of the waiting jobs with which they keep precedence.
pub fn links_are_precedence()
    ensures { LinksArePrecedence }
{}

/// If a link is the first that is wrong, it is told, with what is wrong with it.
pub fn first_wrong_is_told()
    ensures { FirstWrongIsTold }
{}

/// Starts keep links of phases exactly if they keep the links between leaves that these stand for.
pub fn leaf_links_are_links()
    ensures { LeafLinksAreLinks }
{}

/// Starts keep links of phases exactly if the starts of the leaves alone keep the links between these.
pub fn numbered_links_are_links()
    ensures { NumberedLinksAreLinks }
{}

/// Each task has a leaf in it, and so an end and a start.
pub fn each_task_has_leaf()
    ensures { EachTaskHasLeaf }
{}

/// If a link of phases is the first that is wrong, it is told, with what is wrong with it.
pub fn first_unspread_is_told()
    ensures { FirstUnspreadIsTold }
{}
