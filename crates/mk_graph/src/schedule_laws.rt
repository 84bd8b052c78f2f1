//! Laws of schedules. Each is the contract of an empty function; calling the function gives the
//! law.

ghost use Rattle.mk_graph.specs.ScheduleLaws.{SerialOrderIsASchedule, AllGoalsSuffice, BeforeIsDecided, WantedGrows, CanStartStays};

/// In a graph without cycles the serial order of any part of the goals is a schedule for that part:
/// each node can start once those before it are done.
pub fn serial_order_is_a_schedule()
    ensures { SerialOrderIsASchedule }
{}

/// If a node runs before another one in all makes of all goals, then it does so in makes of any
/// part of the goals.
pub fn all_goals_suffice()
    ensures { AllGoalsSuffice }
{}

/// For any two nodes of a graph, one runs before the other or it doesn't.
pub fn before_is_decided()
    ensures { BeforeIsDecided }
{}

/// A wanted node stays wanted as more nodes are done, and in makes of more goals.
pub fn wanted_grows()
    ensures { WantedGrows }
{}

/// A node that can start can still start as more nodes are done, as long as it isn't done itself.
pub fn can_start_stays()
    ensures { CanStartStays }
{}
