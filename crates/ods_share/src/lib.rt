//! A volume that sessions share: the desk under the lock, sessions in threads of their own, and the settlement.
#![tactic(auto)]

mod counter;
mod desk;
mod faults;
mod gate;
mod keeping;
mod run;
mod session;
mod settlement;
mod threads;

pub use desk::Desk;
pub use faults::{RunFault, SettleFault};
pub use gate::Gate;
pub use keeping::{Ended, Keep};
pub use ods_ask::{Action, Ask, Call, Command, Id, Look, Outcome, Reply, Script};
pub use ods_views::{Naming, Told, ViewFault, Viewer};
pub use run::{run_keeping, run_scripts, run_sessions};
pub use settlement::{Report, settle, settle_mounted};
