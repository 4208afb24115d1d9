// How a command on a directory ended.
use zn_files::Files;
use zn_run::Status;

/// How a command ended, and the directory as it was left.
#[derive(Drop)]
pub struct Ended<F: Files> {
    pub status: Status,
    pub files: F,
}
