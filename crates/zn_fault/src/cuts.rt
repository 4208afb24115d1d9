// The cuts of a loss of power: how they are found, and what refuses them.
ghost use Rattle.std.specs.Prelude.{◌≡◌, ◌<◌, ℕ, ◌==◌, drop, length, false, IfOk};
ghost use Rattle.std.specs.List.{list_any};
ghost use Rattle.zn_truth.specs.Power.{cut_of};
ghost use Rattle.zn_truth.specs.World.{geometry_of};
ghost use Rattle.zn_truth.specs.Inject.{is_bad_cut, repeats, are_bad_cuts, is_outside};
ghost use Rattle.zn_device.specs.Harms.{Harmed};
ghost use Rattle.zn_fault.specs.Losses.{is_bad_loss};
ghost use Rattle.zn_fault.specs.Strikes.{without_value};

use crate::asked::{info_of, is_zone};
use zn_device::{Harm, Zoned};
use zn_truth::{Cuts, DevError, Kind, LossSpec, ZoneNo};

/// The blocks that a zone is cut to, if a cut names it: those of the first that does.
pub fn cut_of(cuts: &Cuts, z: ZoneNo) -> Option<u32>
    ensures { result ≡ cut_of cuts.now z.0 }
{
    for i in 0..cuts.len() {
        let (zone, blocks) = cuts.at(i);
        if zone.0 == z.0 {
            return Some(blocks);
        }
    }
    None
}

/// A copy of the loss.
pub fn copied(loss: &LossSpec) -> LossSpec
    ensures { result ≡ loss.now }
{
    let mut cuts = Cuts::new();
    for i in 0..loss.cuts.len() {
        let (zone, blocks) = loss.cuts.at(i);
        cuts.push(zone, blocks);
    }
    LossSpec {
        cuts,
        fill: loss.fill,
    }
}

/// Whether the cut is of a zone that isn't there, or of a conventional one.
#[tactic(auto, using(zn_truth::proofs::Issuing::kind_is))]
fn is_bad_cut<D: Zoned>(dev: &D, cut: (ZoneNo, u32)) -> bool
    ensures { result ≡ is_bad_cut (D.state dev.now).world.truth cut }
{
    !is_zone(dev, cut.0) || dev.kind(cut.0) == Kind::Conventional
}

/// Whether one of the cuts is of a zone that isn't there, or of a conventional one.
fn has_bad_cut<D: Zoned>(dev: &D, cuts: &Cuts) -> bool
    ensures { result ≡ list_any (is_bad_cut (D.state dev.now).world.truth) cuts.now }
{
    for i in 0..cuts.len() {
        if is_bad_cut(dev, cuts.at(i)) {
            return true;
        }
    }
    false
}

/// Whether a cut names the zone, of those from one on.
fn is_named(cuts: &Cuts, from: u32, z: ZoneNo) -> bool
    ensures { result ≡ list_any (λ cut. cut.0.0 == z.0) (drop from cuts.now) }
{
    for i in from..cuts.len() {
        if cuts.at(i).0.0 == z.0 {
            return true;
        }
    }
    false
}

/// Whether a zone is named twice.
fn repeats(cuts: &Cuts) -> bool
    ensures { result ≡ repeats cuts.now }
{
    for i in 0..cuts.len() {
        if is_named(cuts, i + 1, cuts.at(i).0) {
            return true;
        }
    }
    false
}

/// Whether one of the cuts is bad, or two of them name the same zone.
pub fn are_bad_cuts<D: Zoned>(dev: &D, cuts: &Cuts) -> bool
    ensures { result ≡ are_bad_cuts (D.state dev.now).world.truth cuts.now }
{
    has_bad_cut(dev, cuts) || repeats(cuts)
}

/// Whether the cut is to a length below what is durable, or above what is held.
fn is_outside<D: Harm>(dev: &mut D, cut: (ZoneNo, u32)) -> Result<bool, DevError>
    requires zone { cut.0.0 < length (geometry_of (D.state dev.old).world).kinds }
    requires unspoilt { (D.state dev.old).spoilt ≡ false }
    ensures value { IfOk result (λ outside. outside ≡ is_outside (D.state dev.old).world.truth cut) }
    ensures asked { Harmed (D.state dev.old).world.truth (without_value result)
        (D.state dev.old) (D.state dev.new) }
{
    let (zone, blocks) = cut;
    let held = info_of(dev, zone)?.held;
    Ok(blocks < dev.durable(zone) || held < blocks)
}

/// Whether one of the cuts is to a length below what is durable, or above what is held.
fn are_outside<D: Harm>(dev: &mut D, cuts: &Cuts) -> Result<bool, DevError>
    requires cuts { list_any (is_bad_cut (D.state dev.old).world.truth) cuts.now ≡ false }
    requires unspoilt { (D.state dev.old).spoilt ≡ false }
    ensures value { IfOk result
        (λ outside. outside ≡ list_any (is_outside (D.state dev.old).world.truth) cuts.now) }
    ensures asked { Harmed (D.state dev.old).world.truth (without_value result)
        (D.state dev.old) (D.state dev.new) }
{
    for i in 0..cuts.len() {
        if is_outside(dev, cuts.at(i))? {
            return Ok(true);
        }
    }
    Ok(false)
}

/// Whether the loss is refused, where there is power.
pub fn is_bad_loss<D: Harm>(dev: &mut D, loss: &LossSpec) -> Result<bool, DevError>
    requires unspoilt { (D.state dev.old).spoilt ≡ false }
    ensures value { IfOk result (λ bad. bad ≡ is_bad_loss (D.state dev.old).world.truth loss.now) }
    ensures asked { Harmed (D.state dev.old).world.truth (without_value result)
        (D.state dev.old) (D.state dev.new) }
{
    if are_bad_cuts(dev, &loss.cuts) {
        return Ok(true);
    }
    are_outside(dev, &loss.cuts)
}
