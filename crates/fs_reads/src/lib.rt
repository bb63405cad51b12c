//! The commands of `f11fs` that only read. `ods_shell` determines what a path finds and what is printed; this crate has the files of the host, the
//! streams and the statuses. Clauses state who may read what, how two images differ, why there is no volume, the status of a command, and that a text
//! keeps its earlier contents. No clause covers what is printed and written: `tests/fs` checks it on the built program.
#![tactic(auto)]

mod checking;
mod closed;
mod comparing;
mod deleted;
mod file_paths;
mod finding;
mod getting;
mod getting_deleted;
mod getting_part;
mod getting_tree;
mod host_files;
mod informing;
mod listing;
mod looks;
mod near;
mod obeying;
mod output;
mod passed_over;
mod pouring;
mod printing;
mod progress;
mod readable;
mod reading;
mod rescue_folder;
mod rescue_image;
mod rescue_lines;
mod rescue_tree;
mod rescue_way;
mod rescued_file;
mod rescuing;
mod scanning;
mod showing;
mod stop;
mod tar_folders;
mod targets;
mod tarring;
mod tarring_directories;
mod volume;

pub use checking::{check, check_image};
pub use comparing::{Known, all_known, difference_by_id, place_of};
pub use informing::{behind_by, info, info_image};
pub use looks::{Look, looks_like};
pub use near::path_elsewhere;
pub use obeying::{obey, show_space};
pub use progress::Progress;
pub use readable::{Readable, open_readable, readable_of};
pub use rescuing::rescue;
pub use stop::{Stop, WordFault, say_end, send, stop_about, stop_at_own_output};
pub use volume::{
    VolumeFault, image_of, lacks_blocks, open_image, open_volume, say_extent, stop_unread,
    volume_of,
};
