// Which zones make which file.
ghost use Rattle.std.specs.Prelude.{◌≡◌, ◌<◌, ◌≤◌, length, IfOk};
ghost use Rattle.zn_truth.specs.declared.limits.TheConstants.{MAX_ZONES};
ghost use Rattle.zn_model.specs.ZoneFiles.{is_conventional as is_conventional_kind, run_length as run_of, layout_of};
ghost use Rattle.zn_report.specs.Layouts.{file_from as file_begun, IsLayoutOf};

use crate::Layout;
use std::alloc::{AllocError, Global};
use zn_model::{FileZones, Kind};

/// Any kind but sequential.
fn is_conventional(kind: Kind) -> bool
    ensures { result ≡ is_conventional_kind kind }
{
    matches!(kind, Kind::Conventional)
}

/// How many conventional zones follow one another from a zone on.
fn run_length(kinds: &[Kind], z: usize) -> usize
    requires { z ≤ length kinds.now }
    ensures { result ≡ run_of kinds.now z }
{
    kinds[z..]
        .iter()
        .take_while(|kind| is_conventional(**kind))
        .count()
}

/// The file whose first zone is this one.
fn file_from(kinds: &[Kind], z: usize, aggr: bool) -> FileZones
    requires known { z < length kinds.now }
    requires most { length kinds.now ≤ MAX_ZONES }
    ensures { result ≡ file_begun aggr kinds.now z }
{
    match kinds[z] {
        Kind::Sequential => FileZones {
            first: z as u32,
            zones: 1,
            seq: true,
        },
        Kind::Conventional => FileZones {
            first: z as u32,
            zones: if aggr { run_length(kinds, z) as u32 } else { 1 },
            seq: false,
        },
    }
}

/// The files of a device whose zones are of these kinds: each sequential zone but zone 0, and each conventional zone
/// but zone 0, or with aggregation each run of them. It walks the zones once.
#[tactic(auto, using(crate::proofs::LayoutLaws::walk_laws))]
pub fn layout(alloc: Global, kinds: &[Kind], aggr: bool) -> Result<Layout, AllocError>
    requires some { 1 ≤ length kinds.now }
    requires most { length kinds.now ≤ MAX_ZONES }
    ensures all { IfOk result (λ layout. layout ≡ layout_of kinds.now aggr) }
    ensures each { IfOk result (λ layout. IsLayoutOf kinds.now layout) }
{
    let mut layout = Layout::new(alloc);
    let mut z = 1;
    while z < kinds.len() {
        let file = file_from(kinds, z, aggr);
        layout.add(file)?;
        z += file.zones as usize;
    }
    Ok(layout)
}
