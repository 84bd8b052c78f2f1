//! Laws about members of lists. Each is the contract of an empty function; calling the function
//! gives the law, for the types that the call names.

ghost use Rattle.mk_graph.specs.Membership.{MembersOfAppended, MembersOfMapped, MembersOfJoined};

/// An element is in an appended list exactly if it is in one of its two parts.
pub fn members_of_appended<T>()
    ensures { MembersOfAppended T }
{}

/// An element is in a mapped list exactly if it is the image of some element.
pub fn members_of_mapped<T, U>()
    ensures { MembersOfMapped T U }
{}

/// An element is in a flattened list exactly if it is in the list of some element.
pub fn members_of_joined<T, U>()
    ensures { MembersOfJoined T U }
{}
