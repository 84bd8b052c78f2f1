//! What the program uses of its host: the files on the disk, standard output and standard error,
//! and the exit status.
#![tactic(auto)]

mod causes;
mod disk;
mod ending;
mod heap;
mod opener;
mod outcome;
mod reading;
mod sink;
mod source;
mod writing;

pub use disk::Disk;
pub use ending::{Ending, FAULT, Stop, conclude, end};
pub use heap::keep_pages;
pub use opener::{HostFiles, Opener};
pub use outcome::Outcome;
pub use reading::slurp;
pub use sink::{Sink, WriteFailed};
pub use source::Source;
pub use writing::emit;
