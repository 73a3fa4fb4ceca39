// What the programs ask of the system and tell it: their arguments, files by name, what failed, and the exit status.
//
// A name of a file is bytes, as an argument is. One that is no UTF-8 text names no file that can be opened here.
#![tactic(auto)]

ghost use Rattle.std.specs.Prelude.{◌≡◌, ◌≤◌, length, IfSome};

use std::env::{Env, FillError};
use std::fs::{File, Files, OpenFile, OpenOptions};
use std::io::{ErrorKind, Read, Stdin, Write};
use std::{io, str};

// Room for the longest name of a file, and for an argument: a longer one counts as empty.
pub const LONGEST_ARGUMENT: usize = 4096;

// The descriptor on which the exit status is reported, by the name that the system gives it.
const TELLING: &str = "/dev/fd/3";

// ---- arguments

// What each program is called with: whether its exit status is reported, which argument names the file that it reads,
// and whether a word was not understood, which has been reported then.
#[derive(Clone, Copy)]
pub struct ProgramArguments {
    pub tell: bool,
    pub file: Option<usize>,
    pub wrong: bool,
}

impl ProgramArguments {
    // Takes one more argument, or says what is wrong with it.
    fn take(&mut self, i: usize, word: &[u8]) -> Result<(), &'static str> {
        match word {
            b"--tell" => self.tell = true,
            [b'-', ..] => return Err("unknown option"),
            _ if self.file.is_some() => return Err("more than one file"),
            _ => self.file = Some(i),
        }
        Ok(())
    }
}

// Reads the arguments of the program of a name. Each is offered to `own` first, by its number and its bytes: whether it
// is one that this program alone takes, or what is wrong with it.
pub fn arguments<'a, F: FnMut(usize, &[u8]) -> Result<bool, &'a str>>(
    rt: &HostRuntime,
    name: &str,
    mut own: F,
) -> ProgramArguments
    requires { F.IsAlwaysCallable own }
{
    let mut asked = ProgramArguments {
        tell: false,
        file: None,
        wrong: false,
    };
    for i in 1..argument_count(rt) {
        let mut space = [0u8; LONGEST_ARGUMENT];
        let n = argument(rt, i, &mut space);
        let word = &space[..n];
        let taken = match own(i, word) {
            Ok(true) => Ok(()),
            Ok(false) => asked.take(i, word),
            Err(what) => Err(what),
        };
        if let Err(what) = taken {
            print_wrong(rt, name, what);
            asked.wrong = true;
        }
    }
    asked
}

// How many arguments there are, the program's name included.
pub fn argument_count(rt: &impl Env) -> usize {
    for i in 0..usize::MAX {
        if !is_argument(rt, i) {
            return i;
        }
    }
    usize::MAX
}

fn is_argument(rt: &impl Env, i: usize) -> bool {
    let mut space = [0u8; 1];
    match rt.arg(i, &mut space) {
        Err(FillError::NotPresent) => false,
        _ => true,
    }
}

// Puts an argument at the front of the space and returns its length: 0 where it is absent or has no room.
pub fn argument(rt: &impl Env, i: usize, space: &mut [u8]) -> usize
    ensures { result ≤ length space.new }
{
    match rt.arg(i, space) {
        Ok(n) => n,
        Err(_) => 0,
    }
}

// ---- files

// Opens a file for reading.
pub fn open_read<R: Files>(rt: &R, path: &[u8]) -> io::Result<R::File> {
    let mut how = OpenOptions::new();
    how.read(true);
    open(rt, &how, path)
}

// Opens a file for writing, and empties it or makes it.
pub fn open_overwrite<R: Files>(rt: &R, path: &[u8]) -> io::Result<R::File> {
    let mut how = OpenOptions::new();
    how.write(true);
    how.create(true);
    how.truncate(true);
    open(rt, &how, path)
}

fn open<R: Files>(rt: &R, how: &OpenOptions, path: &[u8]) -> io::Result<R::File> {
    match str::from_utf8(path) {
        Ok(name) => how.open(rt, name),
        Err(_) => Err(io::Error::from(ErrorKind::InvalidFilename)),
    }
}

// Where a program reads from.
#[derive(Drop)]
pub enum Source<F> {
    Named(F),
    Input(Stdin),
}

impl<F: Read> Read for Source<F> {
    fn read(&mut self, buf: &mut [u8]) -> io::Result<usize> {
        match self {
            Source::Named(file) => file.read(buf),
            Source::Input(input) => input.read(buf),
        }
    }
}

// The file that an argument names, or standard input where none does; none where it cannot be opened, which is reported.
pub fn open_source(rt: &HostRuntime, file: Option<usize>) -> Option<Source<File>> {
    let Some(i) = file else {
        return Some(Source::Input(rt.stdin()));
    };
    let mut space = [0u8; LONGEST_ARGUMENT];
    let n = argument(rt, i, &mut space);
    let path = &space[..n];
    match open_read(rt, path) {
        Ok(file) => Some(Source::Named(file)),
        Err(error) => {
            print_failure(rt, &rt.stderr(), path, error);
            None
        }
    }
}

// Reads a part into the space and returns its length, 0 at the end; none where it cannot be read, which the program of
// a name reports.
pub fn read_part(
    rt: &HostRuntime,
    name: &str,
    source: &mut impl Read,
    space: &mut [u8],
) -> Option<usize>
    ensures { IfSome result (λ n. n ≤ length space.new) }
{
    match source.read(space) {
        Ok(n) => Some(n),
        Err(error) => {
            let err = rt.stderr();
            let _ = err.write_all(name.as_bytes());
            print_failure(rt, &err, b": the file cannot be read", error);
            None
        }
    }
}

// The front of some bytes: all of them where there are fewer.
pub fn front(s: &[u8], n: usize) -> &[u8] {
    s.get(..n).unwrap_or(s)
}

// Sees that a file's bytes were taken. What has no disk behind it, as a pipe, has nothing more to say of them.
pub fn written(file: &impl OpenFile) -> io::Result<()> {
    match file.sync_data() {
        Err(error) if error.kind() != ErrorKind::InvalidInput => Err(error),
        _ => Ok(()),
    }
}

// ---- what is told

// A line on standard error: a program's name, a colon and what is wrong.
pub fn print_wrong(rt: &HostRuntime, name: &str, what: &str) {
    let _ = eprintln!(rt; "{name}: {what}");
}

// A line on standard error: what failed, a colon and the system's words for the error.
pub fn print_failure(rt: &impl AllocGlobal, err: &impl Print, what: &[u8], error: io::Error) {
    let _ = err.write_all(what);
    let _ = err.write_all(b": ");
    match format!(in rt.alloc(); "{error}") {
        Ok(text) => {
            let _ = err.write_all(without_number(text.as_str()));
        }
        Err(_) => {
            let _ = err.print(error);
        }
    }
    let _ = err.write_all(b"\n");
}

// An error's words, without its number behind them.
fn without_number(text: &str) -> &[u8] {
    match text.split_once(" (os error ") {
        Some((words, _)) => words.as_bytes(),
        None => text.as_bytes(),
    }
}

// Reports an exit status, 0 to 2, where that is asked for.
pub fn report_status(rt: &impl Files, asked: ProgramArguments, status: u8) {
    if asked.tell {
        tell_status(
            rt,
            match status {
                0 => b"0",
                1 => b"1",
                _ => b"2",
            },
        );
    }
}

// Reports the exit status where a descriptor is open for it.
pub fn tell_status(rt: &impl Files, status: &[u8]) {
    let mut how = OpenOptions::new();
    how.append(true);
    if let Ok(mut file) = how.open(rt, TELLING) {
        let _ = file.write_all(status);
    }
}
