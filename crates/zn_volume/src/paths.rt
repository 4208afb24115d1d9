// The paths of files and directories.
ghost use Rattle.std.specs.Prelude.{◌≡◌, ◌+◌, ◌<◌, ◌^◌, length, option_map, IfSome};
ghost use Rattle.zn_model.specs.ZoneFiles.{Layout, file_named, listing_of, some_names};
ghost use Rattle.zn_volume.specs.Paths.{number_behind as behind, below};

use zn_base::parse_number;

/// The number behind a directory's name and a slash, which are 4 bytes.
fn number_behind(directory: &[u8], path: &[u8]) -> Option<u64>
    requires { length directory.now ≡ 4 }
    ensures { result ≡ behind directory.now path.now }
{
    if path.len() < 4 || &path[..4] != directory {
        return None;
    }
    parse_number(&path[4..], 4_294_967_295)
}

/// The same, where it is below a count.
fn number_below(directory: &[u8], path: &[u8], count: u32) -> Option<u32>
    requires { length directory.now ≡ 4 }
    ensures is { result ≡ below count (behind directory.now path.now) }
    ensures small { IfSome result (λ n. n < count) }
{
    match number_behind(directory, path) {
        Some(number) if number < u64::from(count) => Some(number as u32),
        _ => None,
    }
}

/// The file of a path: those of `cnv` are numbered first.
#[tactic(auto, using(crate::proofs::Naming::file_named_is))]
pub fn file_of_path(path: &[u8], cnv: u32, seq: u32) -> Option<u32>
    requires { cnv + seq < 2 ^ 32 }
    ensures named { (layout : Layout) → length layout.cnv ≡ cnv → length layout.seq ≡ seq →
        result ≡ file_named layout path.now }
    ensures small { IfSome result (λ f. f < cnv + seq) }
{
    match number_below(b"cnv/", path, cnv) {
        Some(number) => Some(number),
        None => match number_below(b"seq/", path, seq) {
            Some(number) => Some(cnv + number),
            None => None,
        },
    }
}

/// How many entries the directory of a path has, where it is one that exists.
#[tactic(auto, unfolding(zn_model::specs::ZoneFiles::listing_of))]
pub fn entries_of_path(path: &[u8], cnv: u32, seq: u32) -> Option<u32>
    ensures { (layout : Layout) → length layout.cnv ≡ cnv → length layout.seq ≡ seq →
        result ≡ option_map length (listing_of layout path.now) }
{
    if path == b"/".as_slice() {
        Some(u32::from(cnv > 0) + u32::from(seq > 0))
    } else if path == b"cnv".as_slice() {
        some_entries(cnv)
    } else if path == b"seq".as_slice() {
        some_entries(seq)
    } else {
        None
    }
}

/// How many names a directory with so many files has, where it is there.
#[tactic(auto, using(crate::proofs::Naming::name_counts))]
fn some_entries(count: u32) -> Option<u32>
    ensures { result ≡ option_map length (some_names count) }
{
    if count == 0 { None } else { Some(count) }
}
