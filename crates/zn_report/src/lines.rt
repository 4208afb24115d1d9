// A zone as a line of text.
ghost use Rattle.std.specs.Prelude.{◌≡◌, ◌++◌};
ghost use Rattle.zn_base.specs.States.{Writes};
ghost use Rattle.zn_base.specs.Parts.{part_text};
ghost use Rattle.zn_model.specs.ZoneTexts.{kind_name, cond_name, place_name, zone_text};

use zn_base::{Part, Sink, WriteFault, write_parts};
use zn_model::{Cond, Kind, Place, ZoneInfo, ZoneNo};

/// The name of a kind.
fn kind_text(kind: Kind) -> &'static [u8]
    ensures { result.now ≡ kind_name kind }
{
    match kind {
        Kind::Conventional => b"cnv",
        Kind::Sequential => b"seq",
    }
}

/// The name of a condition.
fn cond_text(cond: Cond) -> &'static [u8]
    ensures { result.now ≡ cond_name cond }
{
    match cond {
        Cond::Good => b"good",
        Cond::ReadOnly => b"read-only",
        Cond::Offline => b"offline",
    }
}

/// The name of a place, as a text and what stands behind it.
fn place_parts(place: Place) -> (Part<'static>, Part<'static>)
    ensures { part_text result.0 ++ part_text result.1 ≡ place_name place }
{
    match place {
        Place::Super => (Part::Text(b"super"), Part::Text(b"")),
        Place::Cnv(i) => (Part::Text(b"cnv/"), Part::Number(i as u64)),
        Place::Seq(i) => (Part::Text(b"seq/"), Part::Number(i as u64)),
        Place::Unplaced => (Part::Text(b"-"), Part::Text(b"")),
    }
}

/// Writes the line of a zone: its number, kind and condition, the blocks that it holds and has room for, and where it
/// is shown.
pub fn zone_line<K: Sink>(
    z: ZoneNo,
    kind: Kind,
    info: &ZoneInfo,
    capacity: u32,
    place: Place,
    sink: &mut K,
) -> Result<(), WriteFault>
    ensures { Writes result (zone_text z.0 kind info.now capacity place) (K.state sink.old) (K.state sink.new) }
{
    let (name, number) = place_parts(place);
    write_parts(
        sink,
        &[
            Part::Text(b"zone "),
            Part::Number(z.0 as u64),
            Part::Text(b" "),
            Part::Text(kind_text(kind)),
            Part::Text(b" "),
            Part::Text(cond_text(info.cond)),
            Part::Text(b" "),
            Part::Number(info.held as u64),
            Part::Text(b" "),
            Part::Number(capacity as u64),
            Part::Text(b" "),
            name,
            number,
            Part::Text(b"\n"),
        ],
    )
}
