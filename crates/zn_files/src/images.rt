// What a stop may leave of a directory in memory.
ghost use Rattle.std.specs.Prelude.{◌≡◌, [], IfOk};
ghost use Rattle.zn_stand.specs.Directory.{Directory, rested};
ghost use Rattle.zn_files.specs.Images.{image_by};
ghost use Rattle.zn_files.specs.Memory.{mem_state};
ghost use Rattle.zn_files.specs.MemStates.{first};
ghost use Rattle.zn_files.specs.Traces.{TracesAll};

use crate::MemFiles;
use crate::replay::Traces;
use std::alloc::{AllocError, Global};

/// Which of the images of a directory.
#[derive(Clone, Copy, Debug, PartialEq, Eq)]
pub enum Choice {
    /// Each file as at its last sync; a file that was never synced isn't there.
    Least,
    /// All as a read gives it.
    Most,
    /// The same, with this value in each byte that a stop may leave as anything.
    Filled(u8),
}

/// The image by this choice.
pub fn image_of(alloc: Global, files: Traces, choice: Choice) -> Result<MemFiles, AllocError>
    ensures fresh { IfOk result (λ image. mem_state image
        ≡ record { given = (mem_state image).given; made = []; listed = []; calls = 0; faults = 0 }) }
    ensures first { IfOk result (λ image. (d : Directory) → TracesAll files d
        → first (mem_state image) ≡ rested (image_by choice d)) }
{
    let mut image = MemFiles::new(alloc);
    for (name, file) in files {
        if let Some(bytes) = file.left(choice) {
            image.give(name.as_str(), bytes)?;
        }
    }
    Ok(image)
}
