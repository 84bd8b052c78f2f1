//! Laws about the definitions of JSON values. Each law is the contract of a function with an empty
//! body; a caller of the function has the law.

ghost use Rattle.mk_json.specs.Laws.{ValuesTakeTokens, ItemsAreReadInOrder, MembersAreReadInOrder, LastValueCounts, WholeText};

/// Each value takes at least one token.
pub fn values_take_tokens()
    ensures { ValuesTakeTokens }
{}

/// The values of an array are read one after another.
pub fn items_are_read_in_order()
    ensures { ItemsAreReadInOrder }
{}

/// The members of an object are read one after another.
pub fn members_are_read_in_order()
    ensures { MembersAreReadInOrder }
{}

/// If a key occurs several times, its last value counts.
pub fn last_value_counts()
    ensures { LastValueCounts }
{}

/// A text has a JSON value exactly if its tokens are that value and nothing more.
pub fn whole_text()
    ensures { WholeText }
{}
