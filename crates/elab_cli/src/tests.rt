ghost use Rattle.std.specs.Prelude.{◌≤◌};

use crate::{Status, run};
use el_outside::{MemoryFiles, MemorySink, MemorySource, NoMemory};
use std::alloc::Global;
use std::test::Fail;

const COMPLETE_2: &str =
    "complete declarations=2 inserted=0 goals=0 unsolved=0 suspended=0 shadowed=0\n";

const UNEXPECTED: &str = "error 1:1 Unexpected\n";

const USAGE: &str =
    "usage: elab_cli check NAME | session | gen SEED N; options --fuel N, --depth N, --order N\n";

const ROW_1: &[u8; 32] = b"postulate\n  Nat : Set\n  z : Nat\n";

/// A run of the program: which calls of the files and of the sink fail, and how much a put takes.
#[derive(Drop)]
struct Outside {
    files_fail: u64,
    sink_fails: u64,
    most: u32,
}

const SOUND: Outside = Outside {
    files_fail: 0,
    sink_fails: 0,
    most: 1_000,
};

fn words(alloc: Global, given: &[&str]) -> Result<Vec<String>, NoMemory> {
    let mut words = Vec::new(alloc);
    for word in given {
        words.push(String::from_str(alloc, word)?)?;
    }
    Ok(words)
}

/// Runs the program on one file `a`, and gives its status and what it wrote.
fn outcome(
    alloc: Global,
    text: &[u8],
    given: &[&str],
    outside: &Outside,
) -> Result<(Status, Vec<u8>), NoMemory>
    requires { 1 ≤ outside.now.most }
{
    let mut files = MemoryFiles::new(alloc, vec![in alloc; outside.files_fail]?)?;
    files.place("a", text)?;
    // The input is never asked: its first call would fail.
    let mut input = MemorySource::new(Vec::new(alloc), 1, vec![in alloc; 1u64]?);
    let mut output = MemorySink::new(alloc, outside.most, vec![in alloc; outside.sink_fails]?)?;
    let words = words(alloc, given)?;
    let status = run(alloc, &words, &mut files, &mut input, &mut output);
    let bytes = output.bytes().to_vec(alloc)?;
    Ok((status, bytes))
}

// Each call of the outside fails in turn. What went out before is a part of the line.
#[test]
fn each_fault_has_its_status(rt: HostRuntime) -> Result<(), Fail> {
    let alloc = rt.alloc();
    let texts: [(&[u8], &[&str], &str, Status); 3] = [
        (ROW_1.as_slice(), &["check", "a"], COMPLETE_2, Status::Done),
        (b")", &["check", "a"], UNEXPECTED, Status::FileError),
        (b"", &["check"], USAGE, Status::Usage),
    ];
    for (text, given, line, meant) in texts {
        let whole = line.len();
        for (sink_fails, most, status, sent) in [
            (0, 1_000, meant, whole),
            (0, 7, meant, whole),
            (0, 1, meant, whole),
            (1, 1_000, Status::OutputFault, 0),
            (1, 1, Status::OutputFault, 0),
            (2, 1, Status::OutputFault, 1),
            (2, 7, Status::OutputFault, 7),
            // All of the line is handed over at once, so no second call comes that could fail.
            (2, 1_000, meant, whole),
        ] {
            let outside = Outside {
                files_fail: 0,
                sink_fails,
                most,
            };
            let (result, bytes) = outcome(alloc, text, given, &outside)?;
            assert_eq!(rt; result, status);
            assert_eq!(rt;
                bytes.as_slice(),
                line.as_bytes().get(..sent).unwrap_or(b"")
            );
        }
    }
    let outside = Outside {
        files_fail: 1,
        sink_fails: 0,
        most: 1_000,
    };
    let (status, bytes) = outcome(alloc, ROW_1.as_slice(), ["check", "a"].as_slice(), &outside)?;
    assert_eq!(rt; status, Status::FilesFault);
    assert!(rt; bytes.is_empty());
    Ok(())
}

#[test]
fn a_missing_file(rt: HostRuntime) -> Result<(), Fail> {
    let alloc = rt.alloc();
    let (status, bytes) = outcome(alloc, ROW_1.as_slice(), ["check", "b"].as_slice(), &SOUND)?;
    assert_eq!(rt; status, Status::Missing);
    assert!(rt; bytes.is_empty());
    Ok(())
}
