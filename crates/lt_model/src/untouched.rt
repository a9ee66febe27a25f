ghost use Rattle.lt_model.specs.Untouched.{EndsSilently, DropsSilently};

/// A set that no move touched: the end of a move makes nothing of it, and neither does a drop. So a drop might leave
/// out the untouched sets of its family.
#[tactic(auto, using(crate::proofs::SilentEnds::silent_end, crate::proofs::SilentEnds::silent_drop))]
pub fn law_untouched()
    ensures ends { EndsSilently }
    ensures drops { DropsSilently }
{}
