// The live handles.
ghost use Rattle.std.specs.Prelude.{◌≡◌, ◌≢◌, ◌+◌, ◌<◌, ◌≤◌, ◌↔◌, ◌^◌, [], length, IsErr, IfOk, OnOk, OnErr, IfSome, IfNone, Some, All, AllPairs};
ghost use Rattle.std.specs.Option.{option_map};
ghost use Rattle.slab.specs.Slab.{get};
ghost use Rattle.zn_model.specs.Volume.{live_at, with_live, without_live, writers_of};
ghost use Rattle.zn_handle.specs.declared.handles.Entry.{Entry};
ghost use Rattle.zn_handle.specs.HandleState.{open_of, wro_of};

use crate::writers::Writers;
use slab::Slab;
use std::alloc::{AllocError, Global};
use std::marker::Model;
use zn_model::{Handle, MAX_HANDLES, Mode};

// How many keys 32 bits can tell apart.
const MAX_KEYS: usize = 1 << 32;

/// The file that a handle is open on, and for what.
#[derive(Clone, Copy, Debug, PartialEq, Eq)]
pub struct Open {
    pub file: u32,
    pub mode: Mode,
}

/// So many handles are live that no more may be opened.
#[derive(Clone, Copy, Debug, PartialEq, Eq)]
pub struct TooManyHandles;

// What a slot keeps of a live handle.
#[derive(Clone, Copy)]
struct Entry {
    file: u32,
    mode: Mode,
    generation: u64,
}

/// The live handles. No call but `new` takes memory, and none walks them.
#[derive(Drop)]
pub struct Handles {
    slots: Slab<Entry>,
    opened: u64,
    writers: Writers,
}

impl Model for Handles {
    ghost use Rattle.zn_handle.specs.HandleState.{HandleState};

    ghost Value = { HandleState };

    ghost use Rattle.zn_handle.specs.Kept.{seen_of, IsKept};

    ghost view = { seen_of };

    ghost invariant = { IsKept };
}

// Empty slots with room for each handle. Their keys fit 32 bits.
fn empty_slots(alloc: Global) -> Result<Slab<Entry>, AllocError>
    ensures empty { IfOk result (λ s. s.slots ≡ []) }
    ensures room { IfOk result (λ s. MAX_HANDLES ≤ s.capacity) }
    ensures keys { IfOk result (λ s. s.capacity ≤ 2 ^ 32) }
{
    let slots = Slab::with_capacity(alloc, MAX_HANDLES as usize)?;
    if slots.capacity() > MAX_KEYS {
        return Err(AllocError);
    }
    Ok(slots)
}

// The entry under a handle's key, where it has the handle's generation.
fn entry_at(slots: &Slab<Entry>, h: Handle) -> Option<Entry>
    ensures key { IfSome result (λ e. get slots.now h.key ≡ Some e) }
    ensures generation { IfSome result (λ e. e.generation ≡ h.generation) }
    ensures absent { IfNone result ((e : Entry) → get slots.now h.key ≡ Some e → e.generation ≢ h.generation) }
{
    let entry = *slots.get(h.key as usize)?;
    (entry.generation == h.generation).then_some(entry)
}

impl Handles {
    /// No handles, with room for 1,024. The first `cnv` of the files are conventional.
    pub fn new(alloc: Global, cnv: u32, files: u32) -> Result<Handles, AllocError>
        requires { cnv ≤ files }
        ensures { IfOk result (λ h. h ≡ record {
          handles = record { live = []; opened = 0 };
          cnv = cnv;
          files = files;
        }) }
    {
        Ok(Handles {
            slots: empty_slots(alloc)?,
            opened: 0,
            writers: Writers::new(alloc, cnv, files)?,
        })
    }

    /// Opens a file.
    pub fn insert(&mut self, file: u32, mode: Mode) -> Result<Handle, TooManyHandles>
        requires file { file < self.old.files }
        requires opened { self.old.handles.opened < 2 ^ 63 }

        // It fails only at the limit, and then nothing changes.
        ensures limit { IsErr result ↔ (MAX_HANDLES ≤ length self.old.handles.live) }
        ensures room { OnOk result (length self.old.handles.live < MAX_HANDLES) }
        ensures err { OnErr result (self.new ≡ self.old) }

        // The handle is the last, and was never live before.
        ensures added { IfOk result (λ h. self.new ≡ record self.old {
          handles = with_live self.old.handles (record { handle = h; file = file; mode = mode });
        }) }
        ensures generation { IfOk result (λ h. h.generation ≡ self.old.handles.opened) }
        ensures older { IfOk result (λ h. All (λ live. live.handle.generation < h.generation) self.old.handles.live) }
        ensures key { IfOk result (λ h. All (λ live. live.handle.key ≢ h.key) self.old.handles.live) }
    {
        if self.slots.len() >= MAX_HANDLES as usize {
            return Err(TooManyHandles);
        }
        let generation = self.opened;
        let key = self.slots.insert_reserved(Entry {
            file,
            mode,
            generation,
        });
        self.opened += 1;
        self.writers.open(file, mode);
        Ok(Handle {
            key: key as u32,
            generation,
        })
    }

    /// What a handle is open on. None where that very handle isn't live, be its key in use again.
    pub fn get(&self, h: Handle) -> Option<Open>
        ensures open { result ≡ option_map open_of (live_at self.now.handles h) }
        ensures file { IfSome result (λ it. it.file < self.now.files) }
    {
        let entry = entry_at(&self.slots, h)?;
        Some(Open {
            file: entry.file,
            mode: entry.mode,
        })
    }

    /// Closes a handle.
    pub fn remove(&mut self, h: Handle) -> Option<Open>
        ensures open { result ≡ option_map open_of (live_at self.old.handles h) }
        ensures file { IfSome result (λ it. it.file < self.old.files) }
        ensures rest { self.new ≡ record self.old { handles = without_live self.old.handles h } }
        ensures absent { IfNone result (self.new ≡ self.old) }
    {
        let closed = entry_at(&self.slots, h)?;
        self.slots.remove(h.key as usize);
        self.writers.close(closed.file, closed.mode);
        Some(Open {
            file: closed.file,
            mode: closed.mode,
        })
    }

    /// How many handles are open for writing on a file.
    pub fn writers(&self, file: u32) -> u32
        requires { file < self.now.files }
        ensures { result ≡ writers_of self.now.handles file }
    {
        self.writers.of(file)
    }

    /// How many sequential files have a handle open for writing.
    pub fn wro(&self) -> u32
        ensures count { result ≡ wro_of self.now }
        ensures cnv { self.now.cnv ≤ self.now.files }
    {
        self.writers.wro()
    }

    /// How many handles are live.
    pub fn live(&self) -> u32
        ensures count { result ≡ length self.now.handles.live }
        ensures limit { result ≤ MAX_HANDLES }

        // Each has a generation of its own, below the next one, and those opened later have greater ones.
        ensures older { All (λ live. live.handle.generation < self.now.handles.opened) self.now.handles.live }
        ensures rising { AllPairs (λ a b. a.handle.generation < b.handle.generation) self.now.handles.live }
    {
        self.slots.len() as u32
    }

    /// How many handles were opened: the generation of the next one.
    pub fn opened(&self) -> u64
        ensures { result ≡ self.now.handles.opened }
    {
        self.opened
    }
}
