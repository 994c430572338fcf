ghost use Rattle.std.specs.Prelude.{◌≡◌, ◌≢◌, ◌≤◌, ◌<◌, map, string_bytes, length, OnOk, OnErr, IfOk, IsErrOf};
ghost use Rattle.std.specs.Io.KnownBytes.{Appends};
ghost use Rattle.el_outside.specs.Causes.{Rose};
ghost use Rattle.command_line.specs.Ask.{ask_of};
ghost use Rattle.elab_cli.specs.Transcript.{Answers, AppendsPart, Caused, CheckAnswers, EndsWell, ModeAnswers, NothingFailed, UsageAnswers, status_of_report};
ghost use Rattle.elab_cli.specs.Said.{HasSaid, Sends, Tells};

use crate::Status;
use command_line::{Ask, Mode, WordsError, read_words};
use el_outside::{FileRead, Files, NoMemory, PutError, Sink, Source};
use file_load::{Loaded, load};
use session_text::{Report, error_bytes, report_bytes};
use std::alloc::Global;
use term_pool::Limits;

/// The most bytes that a text may have.
const LIMIT: u32 = 1_048_576;

const USAGE: &str =
    "usage: elab_cli check NAME | session | gen SEED N; options --fuel N, --depth N, --order N\n";

/// Puts all of the bytes: what a call leaves is handed in again.
fn put_all<O: Sink>(output: &mut O, bytes: &[u8]) -> Result<(), PutError>
    ensures ok { OnOk result (Appends (O.written output.old) (O.written output.new) bytes.now) }
    ensures err { OnErr result (AppendsPart (O.written output.old) (O.written output.new) bytes.now) }
    ensures later { O.faults output.old ≤ O.faults output.new }
    ensures failed { IsErrOf result PutError.Failed → Rose (O.faults output.old) (O.faults output.new) }
{
    let mut rest = bytes;
    while !rest.is_empty() {
        let n = output.put(rest)?;
        let (_, after) = rest.split_at(n);
        rest = after;
    }
    Ok(())
}

/// How it went with a line that was to go out.
#[derive(Clone, Copy, Debug, PartialEq, Eq)]
enum Said {
    All,
    Failed,
    NoMemory,
}

/// Writes lines, handed over in one piece.
fn say<O: Sink>(output: &mut O, lines: &[u8]) -> Said
    requires { 0 < length lines.now }
    ensures bytes { HasSaid (O.written output.old) (O.written output.new) lines.now result }
    ensures cause { result ≡ Said.Failed → Rose (O.faults output.old) (O.faults output.new) }
    ensures later { O.faults output.old ≤ O.faults output.new }
{
    match put_all(output, lines) {
        Ok(()) => Said::All,
        Err(PutError::Failed) => Said::Failed,
        Err(PutError::NoMemory) => Said::NoMemory,
    }
}

/// Writes the usage line.
fn usage<O: Sink>(output: &mut O) -> Status
    ensures answers { UsageAnswers (O.written output.old) (O.written output.new) result }
    ensures failed { result ≡ Status.OutputFault → Rose (O.faults output.old) (O.faults output.new) }
{
    match say(output, USAGE.as_bytes()) {
        Said::All => Status::Usage,
        Said::Failed => Status::OutputFault,
        Said::NoMemory => Status::NoMemory,
    }
}

/// How the program ends once a report went out.
fn report_status(report: &Report) -> Status
    ensures is { result ≡ status_of_report report.now }
    ensures no_fault { result ≢ Status.OutputFault }
{
    if report.complete {
        Status::Done
    } else {
        Status::Open
    }
}

/// Writes these lines, unless memory ran out before. The status is the one that is meant, once they went out.
fn send<O: Sink>(lines: Result<Vec<u8>, NoMemory>, meant: Status, output: &mut O) -> Status
    requires lines { IfOk lines (λ v. 0 < length v.items) }
    requires meant { meant ≢ Status.OutputFault }
    ensures sent { Sends lines meant (O.written output.old) (O.written output.new) result }
    ensures failed { result ≡ Status.OutputFault → Rose (O.faults output.old) (O.faults output.new) }
{
    let Ok(lines) = lines else {
        return Status::NoMemory;
    };
    match say(output, lines.as_slice()) {
        Said::All => meant,
        Said::Failed => Status::OutputFault,
        Said::NoMemory => Status::NoMemory,
    }
}

/// Writes what is said of a text.
fn tell<O: Sink>(alloc: Global, loaded: Loaded, output: &mut O) -> Status
    ensures told { Tells loaded (O.written output.old) (O.written output.new) result }
    ensures failed { result ≡ Status.OutputFault → Rose (O.faults output.old) (O.faults output.new) }
{
    match loaded {
        Loaded::Error(error) => send(error_bytes(alloc, &error), Status::FileError, output),
        Loaded::Done(file) => {
            let report = file.report();
            send(report_bytes(alloc, report), report_status(report), output)
        }
        Loaded::NoMemory => Status::NoMemory,
    }
}

/// Reads the file, loads it, and writes the report or the error.
fn check<F: Files, O: Sink>(
    alloc: Global,
    name: &str,
    limits: Limits,
    files: &mut F,
    output: &mut O,
) -> Status
    ensures answers { CheckAnswers limits (F.stored files.old) name.now (O.written output.old) (O.written output.new) result }
    ensures files { F.stored files.new ≡ F.stored files.old }
    ensures fault { result ≡ Status.FilesFault → Rose (F.faults files.old) (F.faults files.new) }
    ensures missing { result ≡ Status.Missing → Rose (F.misses files.old) (F.misses files.new) }
    ensures output { result ≡ Status.OutputFault → Rose (O.faults output.old) (O.faults output.new) }
{
    match files.read(alloc, name, LIMIT) {
        FileRead::Bytes(text) => {
            let loaded = load(alloc, text.as_slice(), limits);
            tell(alloc, loaded, output)
        }
        FileRead::Missing => Status::Missing,
        FileRead::Failed => Status::FilesFault,
        FileRead::NoMemory => Status::NoMemory,
    }
}

/// Does what the words ask for, where that is built: `check` alone is.
fn serve<F: Files, O: Sink>(alloc: Global, ask: Ask, files: &mut F, output: &mut O) -> Status
    ensures answers { ModeAnswers ask.limits ask.mode (F.stored files.old) (O.written output.old) (O.written output.new) result }
    ensures files { F.stored files.new ≡ F.stored files.old }
    ensures fault { result ≡ Status.FilesFault → Rose (F.faults files.old) (F.faults files.new) }
    ensures missing { result ≡ Status.Missing → Rose (F.misses files.old) (F.misses files.new) }
    ensures output { result ≡ Status.OutputFault → Rose (O.faults output.old) (O.faults output.new) }
{
    let Ask { mode, limits } = ask;
    match mode {
        Mode::Check(name) => check(alloc, name.as_str(), limits, files, output),
        Mode::Session | Mode::Gen { .. } => usage(output),
    }
}

/// All that the program does. The words are those after its name. The answer is the program's exit
/// status: what was written by then is all that the status says, and each status has its cause.
///
/// The input is not touched, and the files are as they were.
pub fn run<F: Files, I: Source, O: Sink>(
    alloc: Global,
    words: &[String],
    files: &mut F,
    input: &mut I,
    output: &mut O,
) -> Status
    // What the words ask for decides which status may come, and the status says which bytes went out.
    ensures answers { Answers (ask_of (map string_bytes words.now)) (F.stored files.old) (O.written output.old) (O.written output.new) result }

    // A fault or a miss is answered only where its count rose in this call.
    ensures cause { Caused result
        (record { files = F.faults files.old; misses = F.misses files.old; input = I.faults input.old; output = O.faults output.old })
        (record { files = F.faults files.new; misses = F.misses files.new; input = I.faults input.new; output = O.faults output.new }) }

    // Where nothing fails, what was asked for is done, or memory ran out.
    ensures completes { NothingFailed
        (record { files = F.faults files.old; misses = F.misses files.old; input = I.faults input.old; output = O.faults output.old })
        (record { files = F.faults files.new; misses = F.misses files.new; input = I.faults input.new; output = O.faults output.new })
        → EndsWell (ask_of (map string_bytes words.now)) result }

    ensures files { F.stored files.new ≡ F.stored files.old }
    ensures input { input.new ≡ input.old }
{
    match read_words(alloc, words) {
        Ok(ask) => serve(alloc, ask, files, output),
        Err(WordsError::Refused) => usage(output),
        Err(WordsError::NoMemory) => Status::NoMemory,
    }
}
