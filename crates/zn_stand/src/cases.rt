// Small files, worked through.
ghost use Rattle.zn_stand.specs.Cases.{GrownLengths, GrownValues, CutLengths, CutValues, CutKeeps, Overwritten, NeverSynced, WrittenAndCut, Synced};

/// A file that a write grew may have any whole blocks on the way.
pub fn grown_lengths()
    ensures { GrownLengths }
{}

/// What was synced stays, and what was written behind it may be anything.
pub fn grown_values()
    ensures { GrownValues }
{}

/// A file whose length was set has a length that it was set to, or had.
pub fn cut_lengths()
    ensures { CutLengths }
{}

/// What was cut off and added again may be anything, and what was added anew is zero.
pub fn cut_values()
    ensures { CutValues }
{}

/// What was cut off alone is as it was, where it is there.
pub fn cut_keeps()
    ensures { CutKeeps }
{}

/// What was written over may be anything.
pub fn overwritten()
    ensures { Overwritten }
{}

/// A file that was never synced.
pub fn never_synced()
    ensures { NeverSynced }
{}

/// What was written, cut off and added again may be anything.
pub fn written_and_cut()
    ensures { WrittenAndCut }
{}

/// After a sync all is what a read gives.
pub fn synced()
    ensures { Synced }
{}
