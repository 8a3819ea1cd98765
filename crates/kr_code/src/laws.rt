//! What holds of the code: laws, each the contract of an empty function. They are those of any code
//! over the field, with 14 roots and 528 symbols.
ghost use Rattle.kr_code.specs.Laws.{ShortMembersAreDistant, OneShortMemberIsNear, ShortNearIsTheMember, ShortCodedIsTheMember};

/// Any two different short members differ in at least 15 places.
pub fn short_members_are_distant()
    ensures { ShortMembersAreDistant }
{}

/// At most one short member stands within seven places of a word.
pub fn one_short_member_is_near()
    ensures { OneShortMemberIsNear }
{}

/// The search finds the short member within up to seven places, where there is one, and only then.
pub fn short_near_is_the_member()
    ensures { ShortNearIsTheMember }
{}

/// `short_coded` gives the one short member with a message.
pub fn short_coded_is_the_member()
    ensures { ShortCodedIsTheMember }
{}
