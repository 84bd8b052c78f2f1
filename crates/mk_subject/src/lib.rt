//! The judged build, with the tables in which its nodes, files, reads and writers are looked up.
#![tactic(auto)]

mod carrying;
mod counting;
mod file_info;
mod file_writers;
mod files;
pub mod laws;
mod looking_up;
mod name_list;
mod node_row;
mod number_list;
mod number_rows;
mod records;
mod settled;
mod shared_name;
mod subject;
mod tables;
mod target;
mod way_tables;
mod writers;

pub use carrying::carried_lists;
pub use counting::counts;
pub use file_info::FileInfo;
pub use name_list::NameList;
pub use node_row::NodeRow;
pub use number_list::{FEW_NUMBERS, NumberList, has_number};
pub use records::Records;
pub use shared_name::SharedName;
pub use subject::Subject;
pub use target::Target;
pub use way_tables::{EndTables, WayTables, end_tables_of, ends_at, has_at, way_tables_of};
