ghost use Rattle.lt_nest_lines.specs.Serves.{ChildBesideParentText, SiblingsWaitText, EmptyInput, HolderWaitsBehindOutsiderText, ParentHolds, UnknownSet, Repeated, BeginIsNoName};

/// Worked rows.
pub fn law_rows()
    ensures child_beside_parent { ChildBesideParentText }
    ensures siblings_wait { SiblingsWaitText }
    ensures empty_input { EmptyInput }
    ensures holder_waits_behind_outsider { HolderWaitsBehindOutsiderText }
    ensures parent_holds { ParentHolds }
    ensures unknown_set { UnknownSet }
    ensures repeated { Repeated }
    ensures begin_is_no_name { BeginIsNoName }
{}
