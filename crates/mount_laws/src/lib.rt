//! The plain machine's answers on the merge of layers, told by what the layers show: laws for an engine that keeps the layers.
#![tactic(auto)]

mod handle_laws;
mod laws;
pub mod path_laws;
mod rename_laws;

pub use handle_laws::{
    law_of_directory_handle, law_of_file_list, law_of_file_seek, law_of_fstat, law_of_handle_close,
    law_of_open_refusal, law_of_opened_for_reading, law_of_opened_for_writing,
    law_of_opened_making, law_of_read, law_of_truncate, law_of_unopened, law_of_write,
};
pub use laws::{
    law_of_added_link, law_of_added_name, law_of_altered_directory, law_of_altered_inode,
    law_of_alters_named, law_of_attribute_deleted, law_of_attribute_set, law_of_bad_descriptors,
    law_of_beginning, law_of_changed_file, law_of_chmod, law_of_chown, law_of_close,
    law_of_close_removed, law_of_copied_leaf, law_of_copied_link, law_of_copied_name,
    law_of_delete_attribute, law_of_directories, law_of_file_made, law_of_forgotten,
    law_of_get_attribute, law_of_link, law_of_link_made, law_of_list, law_of_list_attributes,
    law_of_list_removed, law_of_live_kept, law_of_live_made, law_of_live_one, law_of_live_shown,
    law_of_live_through_deleted, law_of_live_through_file, law_of_live_through_link,
    law_of_live_through_made, law_of_live_through_mode, law_of_live_through_name,
    law_of_live_through_owner, law_of_live_through_parent, law_of_live_through_rmdir,
    law_of_live_through_set, law_of_live_through_unlink, law_of_made, law_of_mkdir,
    law_of_mode_changed, law_of_name_made, law_of_open, law_of_owner_changed,
    law_of_placed_directory, law_of_placed_leaf, law_of_placed_parent, law_of_readlink,
    law_of_removed_directory, law_of_rmdir, law_of_seek, law_of_set_attribute, law_of_stat,
    law_of_symlink, law_of_taken_away, law_of_thin, law_of_unlink, law_of_unlinked, law_of_walks,
    law_of_written,
};
pub use rename_laws::{
    law_of_can_move, law_of_copied_move, law_of_kept_move_link, law_of_live_through_rename,
    law_of_moved_directory, law_of_moved_link, law_of_moved_name, law_of_placed_move,
    law_of_rename, law_of_renamed, law_of_same_move, law_of_same_rename, law_of_thin_moves,
};
