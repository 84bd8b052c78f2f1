//! Steps of builds that refer to nodes by name.

/// One step of a build. Nodes and files are given by borrowed names. An unknown name is allowed: it
/// is never ready or running, in no footprint, and not editable.
#[derive(Debug, Drop)]
pub enum Step<'a> {
    /// A source is edited.
    Edit {
        /// The file.
        file: &'a str,
        /// The new content.
        content: u64,
    },
    /// A make of some of the goals begins.
    Make {
        /// How many recipes may run at once.
        jobs: usize,
        /// Its goals.
        goals: Vec<&'a str>,
    },
    /// A recipe begins.
    Begin {
        /// Its node.
        node: &'a str,
    },
    /// A running recipe reads a file.
    Look {
        /// Its node.
        node: &'a str,
        /// The file.
        file: &'a str,
    },
    /// A running recipe writes a content into a file.
    Put {
        /// Its node.
        node: &'a str,
        /// The file.
        file: &'a str,
        /// The new content.
        content: u64,
    },
    /// A running recipe ends.
    End {
        /// Its node.
        node: &'a str,
    },
    /// A running recipe breaks off: it fails or is killed.
    Break {
        /// Its node.
        node: &'a str,
        /// Whether its target is removed.
        removed: bool,
    },
    /// A node is passed.
    Pass {
        /// The node.
        node: &'a str,
    },
    /// The make is given up.
    Stop,
    /// The make ends.
    EndMake,
}
