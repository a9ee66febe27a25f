ghost use Rattle.lt_law_apart_nodes.specs.NodeFacts.{NodeIsNow};

/// A runner that looked at its rings to and from the mails that no runner has, by which its letters go out and come
/// in, used first ones of the letters that were brought, and sent all that were given out.
pub fn law_node_now()
    ensures { NodeIsNow }
{}
