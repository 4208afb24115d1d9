// The forms of lines, each a list of words.
ghost use Rattle.std.specs.Prelude.{◌≡◌, ◌≤◌, length, IfOk, IfSome};
ghost use Rattle.zn_lines.specs.declared.limits.TheConstants.{LINE_LIMIT};
ghost use Rattle.zn_lines.specs.Words.{no_more};
ghost use Rattle.zn_lines.specs.Grammar.{mkfs_line, mount_line, umount_line};
ghost use Rattle.zn_lines.specs.Grammar.{open_line, close_line, size_line, read_line, write_line};
ghost use Rattle.zn_lines.specs.Grammar.{truncate_line, sync_line, stat_line, list_line, attr_line};
ghost use Rattle.zn_lines.specs.Grammar.{path_change, rename_line, chmod_line, chown_line, fault_line, turn_line};
ghost use Rattle.zn_lines.specs.Grammar.{submit_line, complete_line, reap_line, zones_line};
ghost use Rattle.zn_lines.specs.Grammar.{power_loss_line, power_loss_in_line, power_on_line};
ghost use Rattle.zn_lines.specs.Grammar.{who_named, line_with, line_of, reading_of};
ghost use Rattle.zn_script.specs.Data.{CallFits};
ghost use Rattle.zn_script.specs.Gives.{Gives};
ghost use Rattle.zn_script.specs.Meant.{line_meant, reading_meant, GivesLine};
ghost use Rattle.zn_script.specs.Places.{left_at, IsPlaceIn};

use crate::Line;
use crate::data::data_at;
use crate::items::items_at;
use crate::losses::{cuts_at, done_at, fill_at};
use crate::words::{
    kind_at, mode_at, number_at, optional_number_at, options_at, path_at, small_number_at, user_at,
    verb_of, word_end, worse_at,
};
use zn_lines::{Change, LAST_NUMBER, Verb};
use zn_model::{MOST_BYTES, Who};

/// Who opens a file: a user or a group that is left out is 0.
fn who_named(uid: Option<u32>, gid: Option<u32>) -> Who
    ensures { result ≡ who_named uid gid }
{
    Who {
        uid: uid.unwrap_or(0),
        gid: gid.unwrap_or(0),
    }
}

/// The line that was read, where no word is left at a place.
#[tactic(auto, using(crate::proofs::Splitting::words_none, crate::proofs::Splitting::words_many))]
fn no_more<'a>(line: &[u8], at: usize, read: Line<'a>) -> Result<Line<'a>, u32>
    requires place { IsPlaceIn line.now at }
    requires fits { CallFits read }
    ensures { GivesLine result (no_more (line_meant read.entry) (left_at line.now at)) }
{
    if at > line.len() {
        Ok(read)
    } else {
        Err((at + 1) as u32)
    }
}

#[tactic(auto, unfolding(zn_lines::specs::Grammar::mkfs_line))]
fn mkfs_line(line: &[u8], at: usize) -> Result<Line<'_>, u32>
    requires { IsPlaceIn line.now at }
    ensures { GivesLine result (mkfs_line (left_at line.now at)) }
{
    let words = items_at(line, at)?;
    Ok(Line::Mkfs(words))
}

#[tactic(auto, unfolding(zn_lines::specs::Grammar::mount_line))]
fn mount_line(line: &[u8], at: usize) -> Result<Line<'_>, u32>
    requires { IsPlaceIn line.now at }
    ensures { GivesLine result (mount_line (left_at line.now at)) }
{
    let (text, at) = options_at(line, at);
    no_more(line, at, Line::Mount(text))
}

#[tactic(auto, unfolding(zn_lines::specs::Grammar::umount_line))]
fn umount_line(line: &[u8], at: usize) -> Result<Line<'_>, u32>
    requires { IsPlaceIn line.now at }
    ensures { GivesLine result (umount_line (left_at line.now at)) }
{
    no_more(line, at, Line::Umount)
}

#[tactic(auto, unfolding(zn_lines::specs::Grammar::open_line))]
fn open_line(line: &[u8], at: usize) -> Result<Line<'_>, u32>
    requires { IsPlaceIn line.now at }
    ensures { GivesLine result (open_line (left_at line.now at)) }
{
    let (number, at) = small_number_at(line, at, LAST_NUMBER)?;
    let (path, at) = path_at(line, at)?;
    let (mode, at) = mode_at(line, at)?;
    let (uid, at) = user_at(line, at, b"uid=");
    let (gid, at) = user_at(line, at, b"gid=");
    no_more(
        line,
        at,
        Line::Open(number, path, mode, who_named(uid, gid)),
    )
}

#[tactic(auto, unfolding(zn_lines::specs::Grammar::close_line))]
fn close_line(line: &[u8], at: usize) -> Result<Line<'_>, u32>
    requires { IsPlaceIn line.now at }
    ensures { GivesLine result (close_line (left_at line.now at)) }
{
    let (number, at) = small_number_at(line, at, LAST_NUMBER)?;
    no_more(line, at, Line::Close(number))
}

#[tactic(auto, unfolding(zn_lines::specs::Grammar::size_line))]
fn size_line(line: &[u8], at: usize) -> Result<Line<'_>, u32>
    requires { IsPlaceIn line.now at }
    ensures { GivesLine result (size_line (left_at line.now at)) }
{
    let (number, at) = small_number_at(line, at, LAST_NUMBER)?;
    no_more(line, at, Line::Size(number))
}

#[tactic(auto, unfolding(zn_lines::specs::Grammar::read_line))]
fn read_line(line: &[u8], at: usize) -> Result<Line<'_>, u32>
    requires { IsPlaceIn line.now at }
    ensures { GivesLine result (read_line (left_at line.now at)) }
{
    let (number, at) = small_number_at(line, at, LAST_NUMBER)?;
    let (offset, at) = number_at(line, at, u64::MAX)?;
    let (len, at) = small_number_at(line, at, MOST_BYTES)?;
    no_more(line, at, Line::Read(number, offset, len))
}

#[tactic(auto, unfolding(zn_lines::specs::Grammar::write_line))]
fn write_line(line: &[u8], at: usize) -> Result<Line<'_>, u32>
    requires { IsPlaceIn line.now at }
    ensures { GivesLine result (write_line (left_at line.now at)) }
{
    let (number, at) = small_number_at(line, at, LAST_NUMBER)?;
    let (offset, at) = number_at(line, at, u64::MAX)?;
    let (data, at) = data_at(line, at)?;
    no_more(line, at, Line::Write(number, offset, data))
}

#[tactic(auto, unfolding(zn_lines::specs::Grammar::truncate_line))]
fn truncate_line(line: &[u8], at: usize) -> Result<Line<'_>, u32>
    requires { IsPlaceIn line.now at }
    ensures { GivesLine result (truncate_line (left_at line.now at)) }
{
    let (number, at) = small_number_at(line, at, LAST_NUMBER)?;
    let (size, at) = number_at(line, at, u64::MAX)?;
    no_more(line, at, Line::Truncate(number, size))
}

#[tactic(auto, unfolding(zn_lines::specs::Grammar::sync_line))]
fn sync_line(line: &[u8], at: usize) -> Result<Line<'_>, u32>
    requires { IsPlaceIn line.now at }
    ensures { GivesLine result (sync_line (left_at line.now at)) }
{
    let (number, at) = small_number_at(line, at, LAST_NUMBER)?;
    no_more(line, at, Line::Sync(number))
}

#[tactic(auto, unfolding(zn_lines::specs::Grammar::stat_line))]
fn stat_line(line: &[u8], at: usize) -> Result<Line<'_>, u32>
    requires { IsPlaceIn line.now at }
    ensures { GivesLine result (stat_line (left_at line.now at)) }
{
    let (path, at) = path_at(line, at)?;
    no_more(line, at, Line::Stat(path))
}

#[tactic(auto, unfolding(zn_lines::specs::Grammar::list_line))]
fn list_line(line: &[u8], at: usize) -> Result<Line<'_>, u32>
    requires { IsPlaceIn line.now at }
    ensures { GivesLine result (list_line (left_at line.now at)) }
{
    let (path, at) = path_at(line, at)?;
    no_more(line, at, Line::List(path))
}

#[tactic(auto, unfolding(zn_lines::specs::Grammar::attr_line))]
fn attr_line(line: &[u8], at: usize) -> Result<Line<'_>, u32>
    requires { IsPlaceIn line.now at }
    ensures { GivesLine result (attr_line (left_at line.now at)) }
{
    no_more(line, at, Line::Attr)
}

#[tactic(auto, unfolding(zn_lines::specs::Grammar::path_change))]
fn path_change(line: &[u8], at: usize, change: Change) -> Result<Line<'_>, u32>
    requires { IsPlaceIn line.now at }
    ensures { GivesLine result (path_change change (left_at line.now at)) }
{
    let (_, at) = path_at(line, at)?;
    no_more(line, at, Line::Change(change))
}

#[tactic(auto, unfolding(zn_lines::specs::Grammar::rename_line))]
fn rename_line(line: &[u8], at: usize) -> Result<Line<'_>, u32>
    requires { IsPlaceIn line.now at }
    ensures { GivesLine result (rename_line (left_at line.now at)) }
{
    let (_, at) = path_at(line, at)?;
    let (_, at) = path_at(line, at)?;
    no_more(line, at, Line::Change(Change::Rename))
}

#[tactic(auto, unfolding(zn_lines::specs::Grammar::chmod_line))]
fn chmod_line(line: &[u8], at: usize) -> Result<Line<'_>, u32>
    requires { IsPlaceIn line.now at }
    ensures { GivesLine result (chmod_line (left_at line.now at)) }
{
    let (_, at) = path_at(line, at)?;
    let (_, at) = small_number_at(line, at, u32::MAX)?;
    no_more(line, at, Line::Change(Change::Chmod))
}

#[tactic(auto, unfolding(zn_lines::specs::Grammar::chown_line))]
fn chown_line(line: &[u8], at: usize) -> Result<Line<'_>, u32>
    requires { IsPlaceIn line.now at }
    ensures { GivesLine result (chown_line (left_at line.now at)) }
{
    let (_, at) = path_at(line, at)?;
    let (_, at) = small_number_at(line, at, u32::MAX)?;
    let (_, at) = small_number_at(line, at, u32::MAX)?;
    no_more(line, at, Line::Change(Change::Chown))
}

#[tactic(auto, unfolding(zn_lines::specs::Grammar::fault_line))]
fn fault_line(line: &[u8], at: usize) -> Result<Line<'_>, u32>
    requires { IsPlaceIn line.now at }
    ensures { GivesLine result (fault_line (left_at line.now at)) }
{
    let (zone, at) = number_at(line, at, u64::MAX)?;
    let (command, at) = kind_at(line, at)?;
    let (keep, at) = optional_number_at(line, at, u32::MAX);
    no_more(line, at, Line::Fault(zone, command, keep))
}

#[tactic(auto, unfolding(zn_lines::specs::Grammar::turn_line))]
fn turn_line(line: &[u8], at: usize) -> Result<Line<'_>, u32>
    requires { IsPlaceIn line.now at }
    ensures { GivesLine result (turn_line (left_at line.now at)) }
{
    let (zone, at) = number_at(line, at, u64::MAX)?;
    let (to, at) = worse_at(line, at)?;
    no_more(line, at, Line::Turn(zone, to))
}

#[tactic(auto, unfolding(zn_lines::specs::Grammar::submit_line))]
fn submit_line(line: &[u8], at: usize) -> Result<Line<'_>, u32>
    requires { IsPlaceIn line.now at }
    ensures { GivesLine result (submit_line (left_at line.now at)) }
{
    let (number, at) = small_number_at(line, at, LAST_NUMBER)?;
    let (offset, at) = number_at(line, at, u64::MAX)?;
    let (data, at) = data_at(line, at)?;
    no_more(line, at, Line::Submit(number, offset, data))
}

#[tactic(auto, unfolding(zn_lines::specs::Grammar::complete_line))]
fn complete_line(line: &[u8], at: usize) -> Result<Line<'_>, u32>
    requires { IsPlaceIn line.now at }
    ensures { GivesLine result (complete_line (left_at line.now at)) }
{
    no_more(line, at, Line::Complete)
}

#[tactic(auto, unfolding(zn_lines::specs::Grammar::reap_line))]
fn reap_line(line: &[u8], at: usize) -> Result<Line<'_>, u32>
    requires { IsPlaceIn line.now at }
    ensures { GivesLine result (reap_line (left_at line.now at)) }
{
    no_more(line, at, Line::Reap)
}

#[tactic(auto, unfolding(zn_lines::specs::Grammar::zones_line))]
fn zones_line(line: &[u8], at: usize) -> Result<Line<'_>, u32>
    requires { IsPlaceIn line.now at }
    ensures { GivesLine result (zones_line (left_at line.now at)) }
{
    no_more(line, at, Line::Zones)
}

#[tactic(auto, unfolding(zn_lines::specs::Grammar::power_loss_line))]
fn power_loss_line(line: &[u8], at: usize) -> Result<Line<'_>, u32>
    requires { IsPlaceIn line.now at }
    ensures { GivesLine result (power_loss_line (left_at line.now at)) }
{
    let (fill, at) = fill_at(line, at);
    let cuts = cuts_at(line, at)?;
    Ok(Line::PowerLoss(fill, cuts))
}

#[tactic(auto, unfolding(zn_lines::specs::Grammar::power_loss_in_line))]
fn power_loss_in_line(line: &[u8], at: usize) -> Result<Line<'_>, u32>
    requires { IsPlaceIn line.now at }
    ensures { GivesLine result (power_loss_in_line (left_at line.now at)) }
{
    let (zone, at) = number_at(line, at, u64::MAX)?;
    let (command, at) = kind_at(line, at)?;
    let (carried_out, at) = done_at(line, at);
    let (fill, at) = fill_at(line, at);
    let cuts = cuts_at(line, at)?;
    Ok(Line::PowerLossIn(zone, command, carried_out, fill, cuts))
}

#[tactic(auto, unfolding(zn_lines::specs::Grammar::power_on_line))]
fn power_on_line(line: &[u8], at: usize) -> Result<Line<'_>, u32>
    requires { IsPlaceIn line.now at }
    ensures { GivesLine result (power_on_line (left_at line.now at)) }
{
    no_more(line, at, Line::PowerOn)
}

/// The line with this verb whose other words begin at a place.
fn line_with(verb: Verb, line: &[u8], at: usize) -> Result<Line<'_>, u32>
    requires { IsPlaceIn line.now at }
    ensures { GivesLine result (line_with verb (left_at line.now at)) }
{
    match verb {
        Verb::Mkfs => mkfs_line(line, at),
        Verb::Mount => mount_line(line, at),
        Verb::Umount => umount_line(line, at),
        Verb::Open => open_line(line, at),
        Verb::Close => close_line(line, at),
        Verb::Size => size_line(line, at),
        Verb::Read => read_line(line, at),
        Verb::Write => write_line(line, at),
        Verb::Truncate => truncate_line(line, at),
        Verb::Sync => sync_line(line, at),
        Verb::Stat => stat_line(line, at),
        Verb::List => list_line(line, at),
        Verb::Attr => attr_line(line, at),
        Verb::Create => path_change(line, at, Change::Create),
        Verb::Remove => path_change(line, at, Change::Remove),
        Verb::Rename => rename_line(line, at),
        Verb::Chmod => chmod_line(line, at),
        Verb::Chown => chown_line(line, at),
        Verb::Fault => fault_line(line, at),
        Verb::Turn => turn_line(line, at),
        Verb::Submit => submit_line(line, at),
        Verb::Complete => complete_line(line, at),
        Verb::Reap => reap_line(line, at),
        Verb::Zones => zones_line(line, at),
        Verb::PowerLoss => power_loss_line(line, at),
        Verb::PowerLossIn => power_loss_in_line(line, at),
        Verb::PowerOn => power_on_line(line, at),
    }
}

#[tactic(auto, unfolding(zn_lines::specs::Grammar::line_of))]
fn line_of(line: &[u8]) -> Result<Line<'_>, u32>
    requires { length line.now ≤ LINE_LIMIT }
    ensures { GivesLine result (line_of line.now) }
{
    let end = word_end(line, 0);
    match verb_of(&line[..end]) {
        Some(verb) => line_with(verb, line, end + 1),
        None => Err(1),
    }
}

/// Reads a line: none where it is empty or a comment. It is refused with the column of the first word that
/// does not fit. Its handle's number is at most 2,047, and it reads or writes at most `MOST_BYTES`.
#[tactic(auto, unfolding(zn_lines::specs::Grammar::reading_of))]
pub fn parse(line: &[u8]) -> Result<Option<Line<'_>>, u32>
    requires { length line.now ≤ LINE_LIMIT }
    ensures gives { Gives reading_meant result (reading_of line.now) }
    ensures fits { IfOk result (λ read. IfSome read CallFits) }
{
    if line.is_empty() || line[0] == b'#' {
        return Ok(None);
    }
    Ok(Some(line_of(line)?))
}
