//! Laws of ways, of their order and of their places. Each is the contract of an empty function;
//! calling the function gives the law.

ghost use Rattle.mk_graph_search.specs.Laws.{PrecedesIsAnOrder, WaysAreInOneOrder, PrecedesAsRead, FirstIsOne, FirstIsShortest, OneWayAtAPlace, FirstByPlaces, NoneByPlaces, PlacesAreBelow};

/// The order of ways is transitive and irreflexive.
pub fn precedes_is_an_order()
    ensures { PrecedesIsAnOrder }
{}

/// Of two different ways one precedes the other.
pub fn ways_are_in_one_order()
    ensures { WaysAreInOneOrder }
{}

/// A way precedes another exactly if it is shorter, or equally long and goes to an earlier
/// successor after their common steps.
pub fn precedes_as_read()
    ensures { PrecedesAsRead }
{}

/// There is at most one first way among those whose end passes a test.
pub fn first_is_one()
    ensures { FirstIsOne }
{}

/// The first way whose end passes a test is no longer than any other such way.
pub fn first_is_shortest()
    ensures { FirstIsShortest }
{}

/// There is at most one way at a place.
pub fn one_way_at_a_place()
    ensures { OneWayAtAPlace }
{}

/// If a test fails at the ends of the ways at all earlier places and passes at this one, then the
/// way at this place is the first whose end passes the test.
pub fn first_by_places()
    ensures { FirstByPlaces }
{}

/// If a test fails at the ends of the ways at all places that exist, then it fails at the end of
/// every way.
pub fn none_by_places()
    ensures { NoneByPlaces }
{}

/// If the start and all successors are below a bound, then so are all places of ways.
pub fn places_are_below()
    ensures { PlacesAreBelow }
{}
