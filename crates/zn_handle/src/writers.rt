// How many handles are open for writing on each file.
ghost use Rattle.std.specs.Prelude.{◌≡◌, ◌+◌, ◌<◌, ◌≤◌, ◌^◌, length, slice_index, replicate, IfOk};
ghost use Rattle.zn_handle.specs.Writers.{wro_from, as_writer, IsOneMore};

use bitflags::Flags;
use std::alloc::{AllocError, Global};
use std::marker::Model;
use zn_model::Mode;

// The writers of each file, and how many sequential files have one. The first files are conventional.
#[derive(Drop)]
pub(crate) struct Writers {
    counts: Vec<u32>,
    cnv: u32,
    wro: u32,
}

impl Model for Writers {
    ghost use Rattle.std.specs.Prelude.{◌≡◌, ◌<◌, ◌^◌, vec_len};
    ghost use Rattle.zn_handle.specs.Writers.{Counts, wro_from};

    ghost Value = { Counts };

    ghost view = { λ w. record { counts = w.counts.items; cnv = w.cnv } };

    ghost invariant = { λ w. (w.wro ≡ wro_from w.cnv w.counts.items) × (vec_len w.counts < 2 ^ 32) };
}

#[tactic(auto, using(crate::proofs::WriterLaws::writer_laws))]
impl Writers {
    pub(crate) fn new(alloc: Global, cnv: u32, files: u32) -> Result<Writers, AllocError>
        ensures { IfOk result (λ w. w ≡ record { counts = replicate files 0; cnv = cnv }) }
    {
        Ok(Writers {
            counts: vec![in alloc; 0; files as usize]?,
            cnv,
            wro: 0,
        })
    }

    // Counts one more handle.
    pub(crate) fn open(&mut self, file: u32, mode: Mode)
        requires file { file < length self.old.counts }
        requires fits { slice_index self.old.counts file + 1 < 2 ^ 32 }
        ensures { IsOneMore self.old self.new file mode }
    {
        if !mode.contains(Mode::WRITE) {
            return;
        }
        let count = self.counts[file as usize];
        self.counts[file as usize] = count + 1;
        if count == 0 && file >= self.cnv {
            self.wro += 1;
        }
    }

    // Counts one handle less.
    pub(crate) fn close(&mut self, file: u32, mode: Mode)
        requires file { file < length self.old.counts }
        requires counted { as_writer file mode file ≤ slice_index self.old.counts file }
        ensures { IsOneMore self.new self.old file mode }
    {
        if !mode.contains(Mode::WRITE) {
            return;
        }
        let count = self.counts[file as usize];
        self.counts[file as usize] = count - 1;
        if count == 1 && file >= self.cnv {
            self.wro -= 1;
        }
    }

    pub(crate) fn of(&self, file: u32) -> u32
        requires { file < length self.now.counts }
        ensures { result ≡ slice_index self.now.counts file }
    {
        self.counts[file as usize]
    }

    pub(crate) fn wro(&self) -> u32
        ensures { result ≡ wro_from self.now.cnv self.now.counts }
    {
        self.wro
    }
}
