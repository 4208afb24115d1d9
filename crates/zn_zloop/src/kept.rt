// What is kept of a zone beside its condition and what it holds.
ghost use Rattle.std.specs.Prelude.{◌≡◌, ◌+◌, ◌≤◌, length, false, OnOk, OnErr, Err};
ghost use Rattle.zn_truth.specs.Truth.{cleared};
ghost use Rattle.zn_zloop.specs.Kept.{is_listed, is_changed, synced_mark};
ghost use Rattle.zn_zloop.specs.Written.{written_durable, written_flags, written_mark, with_listed};
ghost use Rattle.zn_truth.specs.declared.limits.TheConstants.{MAX_BLOCKS};
ghost use Rattle.zn_truth.specs.declared.Kind.TheVariants.{Conventional};
ghost use Rattle.zn_truth.specs.declared.DevError.TheVariants.{Memory};
ghost use Rattle.zn_zloop.specs.declared.kept.Mark.TheVariants.{Clean, Changed};
ghost use Rattle.zn_zloop.specs.Managed.{managed_durable, managed_flags, managed_mark};
ghost use Rattle.zn_zloop.specs.Turned.{turned_durable, turned_flags};

use zn_truth::{Cond, DevError, Kind, ZoneNo, ZoneOp};

/// Whether the file of a zone changed since its last sync.
#[derive(Clone, Copy, Debug, PartialEq, Eq)]
pub enum Mark {
    /// It didn't.
    Clean,
    /// It didn't, but it is in the list of those that did.
    Listed,
    /// It did, and is in that list.
    Changed,
}

/// What is kept of a zone.
#[derive(Drop)]
pub struct Kept {
    /// How many blocks, from the start, are durable.
    pub durable: u32,
    /// For each block of a conventional zone, whether it was written since it was last made durable.
    pub unflushed: Vec<bool>,
    pub mark: Mark,
}

impl Mark {
    /// Whether the file is in the list of those that changed.
    pub fn is_listed(self) -> bool
        ensures { result ≡ is_listed self }
    {
        !matches!(self, Mark::Clean)
    }

    /// Whether the file changed since its last sync.
    pub fn is_changed(self) -> bool
        ensures { result ≡ is_changed self }
    {
        matches!(self, Mark::Changed)
    }

    /// The mark once the file is synced.
    fn synced(self) -> Mark
        ensures { result ≡ synced_mark self }
    {
        match self {
            Mark::Clean => Mark::Clean,
            Mark::Listed | Mark::Changed => Mark::Listed,
        }
    }
}

impl Kept {
    /// The file was synced: so many blocks are durable, which is all that the zone holds.
    pub fn rest(&mut self, held: u32)
        ensures durable { self.new.durable ≡ held }
        ensures unflushed { self.new.unflushed.items ≡ cleared self.old.unflushed.items }
        ensures mark { self.new.mark ≡ synced_mark self.old.mark }
    {
        self.durable = held;
        self.unflushed.fill(false);
        self.mark = self.mark.synced();
    }

    /// The file was synced, or didn't change: so many blocks are durable, which is all that the zone holds. It leaves
    /// the list.
    pub fn flush(&mut self, held: u32)
        ensures durable { self.new.durable ≡ held }
        ensures unflushed { self.new.unflushed.items ≡ cleared self.old.unflushed.items }
        ensures mark { self.new.mark ≡ Clean }
    {
        self.durable = held;
        self.unflushed.fill(false);
        self.mark = Mark::Clean;
    }

    /// The zone was managed.
    pub fn manage(&mut self, capacity: u32, op: ZoneOp)
        ensures durable { self.new.durable ≡ managed_durable op capacity self.old.durable }
        ensures unflushed { self.new.unflushed.items ≡ managed_flags op self.old.unflushed.items }
        ensures mark { self.new.mark ≡ managed_mark op self.old.mark }
    {
        match op {
            ZoneOp::Open | ZoneOp::Close => (),
            ZoneOp::Reset => self.rest(0),
            ZoneOp::Finish => self.rest(capacity),
        }
    }

    /// The zone turned to a worse condition, and its file was synced: all of so many blocks is durable, or, offline, it
    /// holds none any more.
    pub fn turn(&mut self, held: u32, to: Cond)
        ensures durable { self.new.durable ≡ turned_durable to held }
        ensures unflushed { self.new.unflushed.items ≡ turned_flags to self.old.unflushed.items }
        ensures mark { self.new.mark ≡ synced_mark self.old.mark }
    {
        match to {
            Cond::Good | Cond::ReadOnly => self.rest(held),
            Cond::Offline => {
                self.unflushed.clear();
                self.rest(0);
            }
        }
    }

    /// Blocks of a conventional zone were written.
    fn touch(&mut self, at: u32, blocks: u32)
        requires { at + blocks ≤ length self.old.unflushed.items }
        ensures durable { self.new.durable ≡ self.old.durable }
        ensures unflushed { self.new.unflushed.items ≡ written_flags Conventional false at blocks self.old.unflushed.items }
        ensures mark { self.new.mark ≡ Changed }
    {
        let first = at as usize;
        self.unflushed[first..first + blocks as usize].fill(true);
        self.mark = Mark::Changed;
    }

    /// Blocks were written, which fill the zone or don't.
    pub fn write(&mut self, kind: Kind, at: u32, blocks: u32, full: bool)
        requires end { at + blocks ≤ MAX_BLOCKS }
        requires flags { kind ≡ Conventional → at + blocks ≤ length self.old.unflushed.items }
        requires kind { kind ≡ Conventional → full ≡ false }
        ensures durable { self.new.durable ≡ written_durable full (at + blocks) self.old.durable }
        ensures unflushed { self.new.unflushed.items ≡ written_flags kind full at blocks self.old.unflushed.items }
        ensures mark { self.new.mark ≡ written_mark full self.old.mark }
    {
        match kind {
            Kind::Conventional => self.touch(at, blocks),
            Kind::Sequential => {
                if full {
                    self.rest(at + blocks);
                } else {
                    self.mark = Mark::Changed;
                }
            }
        }
    }
}

/// Puts a zone into the list of those that changed, if it isn't there.
pub fn list(listed: &mut Vec<u32>, z: ZoneNo, mark: Mark) -> Result<(), DevError>
    ensures ok { OnOk result (listed.new.items ≡ with_listed mark z.0 listed.old.items) }
    ensures err { OnErr result (result ≡ Err Memory) }
{
    if mark.is_listed() {
        return Ok(());
    }
    match listed.push(z.0) {
        Ok(()) => Ok(()),
        Err(_) => Err(DevError::Memory),
    }
}
