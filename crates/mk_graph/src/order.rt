//! The happens-before relation.

ghost use Rattle.std.specs.Prelude.{◌≡◌, true, ◌↔◌};
ghost use Rattle.mk_graph.specs.Schedules.{Before};

/// Tells for any two nodes of a graph whether one runs before the other.
pub trait Order {
    ghost use Rattle.mk_graph.specs.Graph as value;

    /// The graph of the relation.
    ghost graph_of: { Self → value.Graph };

    /// Whether `o` runs before `t`: `o` is done whenever the recipe of `t` may begin, in every make
    /// of any part of the goals with any number of jobs. True for each `t` that has no recipe or
    /// isn't a node. `mk_build` says what this means for traces. It can't fail.
    ///
    /// Targets may be made in parallel, so the order of two names in a list of prerequisites says
    /// nothing about which runs first. A prerequisite is made before its target. What comes after a
    /// `.WAIT` isn't wanted by this list until what comes before it is made, but another list may
    /// want it (IEEE Std 1003.1-2024, XCU make, "Target Rules", and the option `-j`).
    fn before(&self, o: usize, t: usize) -> bool
        ensures { (result ≡ true) ↔ Before (graph_of self.now) o t };
}
