//! All faults of an image, and its findings.
#![tactic(auto)]

mod add;
mod all_findings;
mod before;
mod chains;
mod characteristics;
mod counting;
mod dangling_list;
mod directory;
mod ends;
mod fault_line;
mod faults;
mod finding;
mod first;
mod headers;
mod held_list;
mod hidden;
mod holders;
mod ids;
mod index_faults;
mod lost_headers;
mod lost_list;
mod names;
mod naming;
mod numbers;
mod reading;
mod repeats;
mod shared_headers;
mod sharing;
mod strays;
mod sweep;
mod system;
mod told;
mod unheld;
mod unheld_list;
mod unheld_runs;
mod unnamed;
mod whole;
mod whole_chain;

pub use all_findings::{bad_headers, count_findings, findings};
pub use dangling_list::{Dangling, find_dangling};
pub use directory::{WholeDirectory, whole_directory};
pub use fault_line::{FaultLine, IndexFault, file_in};
pub use faults::{Checked, MOST_LINES, check_all};
pub use finding::{Finding, NoHeader};
pub use first::{First, check_first};
pub use held_list::{blocks_held_besides, find_free_held_blocks};
pub use lost_list::find_lost;
pub use reading::are_all_read;
pub use told::Told;
pub use unheld_list::{
    find_lost_header, find_missing_header, find_unheld_blocks, find_unheld_runs,
};
