//! The laws of groups. Each is the contract of a function that does nothing; the statements are in `specs/GroupLaws.antt`.

ghost use Rattle.drawn_groups.specs.GroupLaws.{GroupsCanMove, GroupsMoveAtOnce, GroupsSettle, GroupsAreBounded};

/// A drawn group can move, and the passes of its members in the order of the moves are that move.
pub fn groups_move_at_once()
    ensures able { GroupsCanMove }
    ensures once { GroupsMoveAtOnce }
{}

/// The members' passes are granted and settle the ring, and no fewer of them do; they are no more than the longest repair has, nor
/// than the bound.
pub fn groups_are_bounded()
    ensures settle { GroupsSettle }
    ensures bounded { GroupsAreBounded }
{}
