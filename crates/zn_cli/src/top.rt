// The top call.
ghost use Rattle.std.specs.Prelude.{◌≡◌, Some, map, string_bytes, unwrap_or};
ghost use Rattle.zn_lines.specs.Session.{uuid_from};
ghost use Rattle.zn_words.specs.Commands.{command_of};
ghost use Rattle.zn_words.specs.CommandsMeant.{command_meant, IsAccepted};
ghost use Rattle.zn_commands.specs.Outside.{outside_of};
ghost use Rattle.zn_cli.specs.Top.{Called, StatusCauses, AcceptedRuns};

use crate::churning::run_churn;
use crate::scratch::run_scratch;
use std::alloc::{AllocError, Global};
use uuid::Builder;
use zn_base::{Sink, Source};
use zn_commands::{Ended, add, mkfs, run_device};
use zn_files::Files;
use zn_run::{Status, end_starved, end_with};
use zn_words::{Command, parse};

/// The identifier that is given; without one, that of version 4 which sixteen bytes make.
fn identifier(given: Option<[u8; 16]>, entropy: [u8; 16]) -> [u8; 16]
    ensures { result ≡ unwrap_or given (uuid_from entropy) }
{
    match given {
        Some(uuid) => uuid,
        None => Builder::from_random_bytes(entropy).into_uuid().into_bytes(),
    }
}

/// Does what a command asks for.
fn carry_out<S: Source, F: Files + Drop, K: Sink>(
    alloc: Global,
    command: &Command<'_>,
    entropy: [u8; 16],
    source: &mut S,
    files: F,
    sink: &mut K,
) -> Ended<F>
    requires { IsAccepted command.now }
    ensures called { Called (Some (command_meant command.now)) entropy result.status
        (outside_of (F.state files) (S.state source.old) (K.state sink.old))
        (outside_of (F.state result.files) (S.state source.new) (K.state sink.new)) }
    ensures causes { StatusCauses (Some (command_meant command.now)) entropy result.status
        (outside_of (F.state files) (S.state source.old) (K.state sink.old))
        (outside_of (F.state result.files) (S.state source.new) (K.state sink.new)) }
    ensures accepted { AcceptedRuns (Some (command_meant command.now)) entropy result.status
        (outside_of (F.state files) (S.state source.old) (K.state sink.old))
        (outside_of (F.state result.files) (S.state source.new) (K.state sink.new)) }
{
    match command {
        Command::Scratch(scratch) => Ended {
            status: run_scratch(alloc, *scratch, entropy, source, sink),
            files,
        },
        Command::Churn(churn) => Ended {
            status: run_churn(alloc, *churn, entropy, sink),
            files,
        },
        Command::Add(_, geo) => add(alloc, geo, files, sink),
        Command::Mkfs(_, format) => {
            let uuid = identifier(format.uuid, entropy);
            mkfs(
                alloc,
                &format.label,
                &format.opts,
                uuid,
                format.force,
                files,
                sink,
            )
        }
        Command::Run(_, options) => run_device(alloc, *options, entropy, files, source, sink),
    }
}

/// Does what the words of a command line ask for, but for the program's name.
///
/// - `scratch ZONES CONV BLOCKS` makes a device in memory, formats it with the defaults and mounts it, opens `seq/0` for
///   reading and writing as number 0 where that is there, and carries out the script that the source gives.
/// - `churn SEED STEPS` makes a script from the seed, of so many steps, carries it out on a device like that of
///   `scratch 10 2 64`, and writes what its replies add up to.
/// - `add DIR KEY=VALUE..` makes a device in the directory, which must be empty.
/// - `mkfs DIR [-f] [-L LABEL] [-U UUID] [-o FEATURES]` formats the device in the directory.
/// - `run DIR [-o OPTIONS]` opens the device in the directory, mounts it where there are options, and carries out the
///   script that the source gives.
///
/// All other words are a bad command line. The files are those of the directory that the words name, which
/// `zn_words::dir_of` tells; `scratch` and `churn`, and words that are no command, make no call on them. Replies and a last line go
/// to the sink. Where memory is wanting for the words or for a device in memory, nothing is read. Where a format names
/// no identifier, that is made of the sixteen bytes of entropy. The directory is given back as the call left it.
pub fn zonefs_main<S: Source, F: Files + Drop, K: Sink>(
    alloc: Global,
    words: &[String],
    entropy: [u8; 16],
    source: &mut S,
    files: F,
    sink: &mut K,
) -> Ended<F>
    ensures called { Called (command_of (map string_bytes words.now)) entropy result.status
        (outside_of (F.state files) (S.state source.old) (K.state sink.old))
        (outside_of (F.state result.files) (S.state source.new) (K.state sink.new)) }
    ensures causes { StatusCauses (command_of (map string_bytes words.now)) entropy result.status
        (outside_of (F.state files) (S.state source.old) (K.state sink.old))
        (outside_of (F.state result.files) (S.state source.new) (K.state sink.new)) }
    ensures accepted { AcceptedRuns (command_of (map string_bytes words.now)) entropy result.status
        (outside_of (F.state files) (S.state source.old) (K.state sink.old))
        (outside_of (F.state result.files) (S.state source.new) (K.state sink.new)) }
{
    match parse(alloc, words) {
        Ok(Some(command)) => carry_out(alloc, &command, entropy, source, files, sink),
        Ok(None) => Ended {
            status: end_with(sink, b"zonefs: bad command line\n", Status::Usage),
            files,
        },
        Err(AllocError) => Ended {
            status: end_starved(sink),
            files,
        },
    }
}
