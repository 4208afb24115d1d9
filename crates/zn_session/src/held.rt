// What a session holds: its device, bare or with a volume on it.
ghost use Rattle.std.specs.Prelude.{◌≡◌, ◌^◌, ◌<◌, ℕ, List, Option, length, option_copied, false, IsSome};
ghost use Rattle.zn_lines.specs.declared.limits.TheConstants.{MAX_NUMBERS};
ghost use Rattle.zn_lines.specs.Lines.{Mount, Umount};
ghost use Rattle.zn_lines.specs.Session.{line_now, options_in};
ghost use Rattle.zn_lines.specs.Table.{no_numbers};
ghost use Rattle.zn_script.specs.Items.{IsShort};
ghost use Rattle.zn_session.specs.SessionState.{bare_held, held_by, AreNumbered};
ghost use Rattle.zn_session.specs.Replies.{Kept};
ghost use Rattle.zn_session.specs.Steps.{Means, Dropped};

use crate::replies::Reply;
use std::alloc::Global;
use zn_device::Zoned;
use zn_model::{Handle, MountOpts, OptError};
use zn_opts::mount_opts;
use zn_volume::Volume;

/// A device, bare or with a mounted volume on it.
#[derive(Drop)]
pub enum Held<D: Zoned + Drop> {
    Bare(D),
    Mounted(Volume<D>),
}

/// Whether the device has power.
pub fn powered<D: Zoned + Drop>(held: &Option<Held<D>>) -> bool
    requires { IsSome held.now }
    ensures { result ≡ (held_by D.state held.now).device.world.powered }
{
    match held {
        Some(Held::Bare(dev)) => dev.powered(),
        Some(Held::Mounted(volume)) => volume.powered(),
        None => false,
    }
}

/// How often what the device is kept in has failed.
pub fn breaks<D: Zoned + Drop>(held: &Option<Held<D>>) -> u64
    requires { IsSome held.now }
    ensures { result ≡ (held_by D.state held.now).device.breaks }
{
    match held {
        Some(Held::Bare(dev)) => dev.breaks(),
        Some(Held::Mounted(volume)) => volume.breaks(),
        None => 0,
    }
}

/// The device.
pub fn device<D: Zoned + Drop>(held: &Option<Held<D>>) -> &D
    requires { IsSome held.now }
    ensures { D.state result.now ≡ (held_by D.state held.now).device }
{
    match held {
        Some(Held::Bare(dev)) => dev,
        Some(Held::Mounted(volume)) => volume.device(),
        None => unreachable!(),
    }
}

/// The device, out of what is held. What was mounted on it is gone.
pub fn into_device<D: Zoned + Drop>(held: Option<Held<D>>) -> D
    requires { IsSome held }
    ensures { D.state result ≡ (held_by D.state held).device }
{
    match held.unwrap() {
        Held::Bare(dev) => dev,
        Held::Mounted(volume) => volume.into_device(),
    }
}

/// Takes its handle from each number.
fn free_all(numbers: &mut Vec<Option<Handle>>)
    requires { length numbers.old.items ≡ MAX_NUMBERS }
    ensures { numbers.new.items ≡ no_numbers }
{
    numbers.fill(None);
}

/// The options of a mount, by the text of a line. No text is as an empty one.
fn options_in(text: Option<&str>) -> Result<MountOpts, OptError>
    requires { IsShort text }
    ensures { result ≡ options_in (option_copied text.entry) }
{
    match text {
        Some(text) => mount_opts(text.as_bytes()),
        None => mount_opts(b""),
    }
}

/// Mounts a bare device. The options are read before any command.
fn mount_bare<D: Zoned + Drop>(
    alloc: Global,
    dev: D,
    text: Option<&str>,
) -> (Held<D>, Reply<'static>)
    requires short { IsShort text }
    requires unspoilt { (D.state dev).spoilt ≡ false }
    ensures { (kept : Kept) (entropy : List ℕ) (numbers : List (Option Handle)) → numbers ≡ no_numbers
        → Means line_now (Mount (option_copied text.entry)) result.1 kept entropy
        (bare_held (D.state dev)) (held_by D.state (Some result.0)) numbers numbers }
{
    let opts = match options_in(text) {
        Ok(opts) => opts,
        Err(error) => return (Held::Bare(dev), Reply::OptionRefused(error)),
    };
    match Volume::mount(alloc, dev, opts) {
        Ok(volume) => (Held::Mounted(volume), Reply::Done),
        Err(fail) => (Held::Bare(fail.dev), Reply::MountRefused(fail.why)),
    }
}

/// Mounts the device, where nothing is mounted.
pub fn mount<D: Zoned + Drop>(
    alloc: Global,
    held: &mut Option<Held<D>>,
    text: Option<&str>,
) -> Reply<'static>
    requires short { IsShort text }
    requires there { IsSome held.old }
    requires unspoilt { (held_by D.state held.old).device.spoilt ≡ false }
    ensures means { (kept : Kept) (entropy : List ℕ) (numbers : List (Option Handle))
        → AreNumbered (held_by D.state held.old) numbers
        → Means line_now (Mount (option_copied text.entry)) result kept entropy
        (held_by D.state held.old) (held_by D.state held.new) numbers numbers }
    ensures there { IsSome held.new }
{
    match held.take() {
        Some(Held::Bare(dev)) => {
            let (after, reply) = mount_bare(alloc, dev, text);
            *held = Some(after);
            reply
        }
        Some(Held::Mounted(volume)) => {
            *held = Some(Held::Mounted(volume));
            Reply::AlreadyMounted
        }
        None => Reply::AlreadyMounted,
    }
}

/// Unmounts the volume, where one is mounted. No number has a handle then.
pub fn umount<D: Zoned + Drop>(
    held: &mut Option<Held<D>>,
    numbers: &mut Vec<Option<Handle>>,
) -> Reply<'static>
    requires there { IsSome held.old }
    requires unspoilt { (held_by D.state held.old).device.spoilt ≡ false }
    requires numbered { AreNumbered (held_by D.state held.old) numbers.old.items }
    ensures means { (kept : Kept) (entropy : List ℕ) → Means line_now Umount result kept entropy
        (held_by D.state held.old) (held_by D.state held.new) numbers.old.items numbers.new.items }
    ensures there { IsSome held.new }
{
    match held.take() {
        Some(Held::Mounted(volume)) => match volume.unmount() {
            Ok(dev) => {
                *held = Some(Held::Bare(dev));
                free_all(numbers);
                Reply::Done
            }
            Err(fail) => {
                *held = Some(Held::Mounted(fail.vol));
                Reply::Refused(fail.why)
            }
        },
        Some(Held::Bare(dev)) => {
            *held = Some(Held::Bare(dev));
            Reply::NotMounted
        }
        None => Reply::NotMounted,
    }
}

/// Without power the volume is gone, and no number has a handle.
pub fn drop_unpowered<D: Zoned + Drop>(
    held: &mut Option<Held<D>>,
    numbers: &mut Vec<Option<Handle>>,
)
    requires there { IsSome held.old }
    requires numbered { AreNumbered (held_by D.state held.old) numbers.old.items }
    ensures dropped { Dropped (held_by D.state held.old) (held_by D.state held.new)
        numbers.old.items numbers.new.items }
    ensures there { IsSome held.new }
{
    if powered(held) {
        return;
    }
    match held.take() {
        Some(Held::Mounted(volume)) => {
            *held = Some(Held::Bare(volume.into_device()));
            free_all(numbers);
        }
        Some(Held::Bare(dev)) => *held = Some(Held::Bare(dev)),
        None => {}
    }
}
