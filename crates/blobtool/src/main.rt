//! Runs a script from standard input on the store in an image file, and prints its log to standard output, or runs a
//! generated one and prints what sums it up; writes a new store into the file, and prints its line; prints the store in
//! the file and its volumes; writes what a volume shows to another file; or prints a generated script. Any exit status other than 0 comes with one line on standard
//! error; where the words are no command, or ask for help, with `clap`'s text.
#![tactic(auto)]

use blob_tool::{OpenGate, Status, blobtool_two};
use command_words::{CommandWords, read_words, refusal};
use host_io::{
    Access, Ending, ErrorLine, FileDisk, ImageSizes, KeptInput, OpenFault, StdSink, StdSource,
    close, hold_streams, image_beside, is_asked_for, open, take_new, word_fault,
};
use page_disk::{MemDisk, PageDisk};
use std::process::ExitCode;
use std::sync::Wait;
use std::thread::Threads;
use std::{env, io};

/// The words after the program's name.
fn words(rt: &HostRuntime) -> io::Result<Vec<String>> {
    let mut words = Vec::new(rt.alloc());
    for word in env::args(rt)?.skip(1) {
        words.push(word)?;
    }
    Ok(words)
}

/// The ending at words that are no command, or of which one isn't of its form.
fn usage(rt: &HostRuntime, words: &[String]) -> Ending {
    match refusal(rt.alloc(), words) {
        Ok(Some(text)) => return Ending::Refused(text),
        Ok(None) => {}
        Err(_) => return Ending::Ran(Status::Memory),
    }
    match word_fault(rt.alloc(), words) {
        Ok(Some(fault)) => Ending::BadWord(fault),
        Ok(None) => Ending::Ran(Status::Usage),
        Err(_) => Ending::Ran(Status::Memory),
    }
}

/// Does what the words say over the standard streams, this device, and the second one, if there is one. It hands the
/// devices back.
fn perform<'a, D: PageDisk + Drop + Send, E: PageDisk + Drop + Send, R: Threads + Wait + Sync>(
    rt: &HostRuntime,
    threads: &R,
    words: &'a [String],
    image: Option<&'a str>,
    disk: D,
    second: Option<E>,
) -> (ErrorLine<'a>, D, Option<E>) {
    let mut script = StdSource::new(KeptInput::new(rt.alloc(), rt.stdin()));
    let mut out = StdSink::new(rt.stdout());
    let (status, disk, second) = blobtool_two(
        threads,
        rt.alloc(),
        words,
        &mut script,
        &mut out,
        disk,
        second,
        &OpenGate,
    );
    let failure = match &status {
        Status::ScriptRead => script.failure(),
        Status::OutWrite => out.failure(),
        _ => None,
    };
    let script_line = match &status {
        Status::Script { line, .. } if *line > 0 => script.reader().line(rt.alloc(), *line).ok(),
        _ => None,
    };
    let ending = match status {
        Status::Usage => usage(rt, words),
        status => Ending::Ran(status),
    };
    let mut line = ErrorLine::new(words.first().map(|word| word.as_str()), image, ending);
    line.failure = failure;
    line.script_line = script_line;
    (line, disk, second)
}

/// Closes the disk of an image, and takes into the line which call on it failed. Where all was good but a write that is
/// made only now, the device failed.
fn end_disk(line: &mut ErrorLine<'_>, disk: FileDisk) {
    let (written, failure) = close(disk);
    if written.is_err() && matches!(&line.ending, Ending::Ran(Status::Good)) {
        line.ending = Ending::Ran(Status::Device { at: 0 });
    }
    if matches!(&line.ending, Ending::Ran(Status::Device { .. })) {
        line.failure = failure;
    }
}

/// Closes the target of an export, and takes into the line which call on it failed.
fn end_target<'a>(line: &mut ErrorLine<'a>, target: &'a str, disk: FileDisk) {
    let (written, failure) = close(disk);
    if written.is_err() && matches!(&line.ending, Ending::Ran(Status::Good)) {
        line.ending = Ending::Ran(Status::Device { at: 0 });
    }
    if let Some(failure) = failure {
        line.image = Some(target);
        line.failure = Some(failure.on_target());
    }
}

/// Does what the words say over this image, and over this target, if there is one. The target is opened last, and nothing
/// is done unless both are had.
fn over_files<'a, R: Threads + Wait + Sync>(
    rt: &HostRuntime,
    threads: &R,
    words: &'a [String],
    image: &'a str,
    target: &'a str,
) -> ErrorLine<'a> {
    let command = words.first().map(|word| word.as_str());
    let disk = match open(rt, image, Access::Read) {
        Ok(disk) => disk,
        Err(ending) => return ErrorLine::new(command, Some(image), ending),
    };
    let second = match open(rt, target, Access::Write) {
        Ok(second) => second,
        Err(ending) => return ErrorLine::new(command, Some(target), ending),
    };
    let (mut line, mut disk, second) = perform(rt, threads, words, Some(image), disk, Some(second));
    if matches!(&line.ending, Ending::Ran(Status::Image { .. })) {
        line.sizes = ImageSizes::on(&mut disk);
    }
    end_disk(&mut line, disk);
    if let Some(second) = second {
        end_target(&mut line, target, second);
    }
    line
}

/// Does what the words say over this image.
fn over_image<'a, R: Threads + Wait + Sync>(
    rt: &HostRuntime,
    threads: &R,
    words: &'a [String],
    image: &'a str,
    access: Access,
) -> ErrorLine<'a> {
    match open(rt, image, access) {
        Ok(disk) => {
            let none: Option<FileDisk> = None;
            let (mut line, mut disk, _) = perform(rt, threads, words, Some(image), disk, none);
            if matches!(&line.ending, Ending::Ran(Status::Image { .. })) {
                line.sizes = ImageSizes::on(&mut disk);
            }
            end_disk(&mut line, disk);
            line
        }
        Err(ending) => {
            let command = words.first().map(|word| word.as_str());
            ErrorLine::new(command, Some(image), ending)
        }
    }
}

/// Does what the words say over a device without pages, since they name no image.
fn without_image<'a, R: Threads + Wait + Sync>(
    rt: &HostRuntime,
    threads: &R,
    words: &'a [String],
) -> ErrorLine<'a> {
    match MemDisk::new(rt.alloc(), 0, 0) {
        Ok(disk) => {
            let none: Option<MemDisk> = None;
            let (line, _disk, _) = perform(rt, threads, words, None, disk, none);
            line
        }
        Err(_) => ErrorLine::new(None, None, Ending::Ran(Status::Memory)),
    }
}

/// Answers words that are no command. What they ask for is answered at once; else an image that can't be opened is told
/// before them.
fn refuse<'a, R: Threads + Wait + Sync>(
    rt: &HostRuntime,
    threads: &R,
    words: &'a [String],
) -> ErrorLine<'a> {
    match refusal(rt.alloc(), words) {
        Ok(Some(text)) if is_asked_for(&text) => {
            return ErrorLine::new(None, None, Ending::Refused(text));
        }
        Ok(_) => {}
        Err(_) => return ErrorLine::new(None, None, Ending::Ran(Status::Memory)),
    }
    match image_beside(words) {
        Some(image) => over_image(rt, threads, words, image, Access::Read),
        None => without_image(rt, threads, words),
    }
}

/// Opens the image that the words name, for a new store alone where that is asked for, and does what they say.
fn start<'a, R: Threads + Wait + Sync>(
    rt: &HostRuntime,
    threads: &R,
    words: &'a [String],
    is_new: bool,
) -> ErrorLine<'a> {
    match read_words(rt.alloc(), words) {
        Ok(Some(CommandWords::Format { image, .. })) if is_new => {
            over_image(rt, threads, words, image, Access::WriteNew)
        }
        Ok(
            Some(
                CommandWords::Run { image, .. }
                | CommandWords::Format { image, .. }
                | CommandWords::Exercise { image, .. },
            ),
        ) => over_image(rt, threads, words, image, Access::Write),
        Ok(Some(CommandWords::List { image, .. })) => over_image(
            rt,
            threads,
            words,
            image,
            Access::Read,
        ),
        Ok(Some(CommandWords::Export { image, target, .. })) => {
            over_files(rt, threads, words, image, target)
        }
        Ok(Some(CommandWords::Generate { .. })) => without_image(rt, threads, words),
        Ok(None) => refuse(rt, threads, words),
        Err(_) => ErrorLine::new(None, None, Ending::Ran(Status::Memory)),
    }
}

/// Prints the line of an ending, but for the good one, and gives the exit status.
fn tell(rt: &HostRuntime, line: &ErrorLine<'_>) -> u8 {
    let _ = match &line.ending {
        Ending::Ran(Status::Good) => Ok(()),
        Ending::Refused(_) => eprint!(rt; "{line}"),
        _ => eprintln!(rt; "{line}"),
    };
    line.ending.code()
}

/// Does what the program is called for, and gives the exit status.
fn serve<R: Threads + Wait + Sync>(rt: &HostRuntime, threads: &R) -> u8 {
    match words(rt) {
        Ok(mut words) => {
            let is_new = take_new(&mut words);
            tell(rt, &start(rt, threads, words.as_slice(), is_new))
        }
        Err(error) => tell(rt, &ErrorLine::new(None, None, Ending::no_words(error))),
    }
}

fn main(rt: HostRuntime) -> ExitCode {
    let code = match hold_streams(&rt) {
        Ok(held) => {
            let code = serve(&rt, &rt);
            drop(held);
            code
        }
        Err(error) => {
            let ending = Ending::NotOpened(OpenFault::Failed(error));
            tell(&rt, &ErrorLine::new(None, Some("/dev/null"), ending))
        }
    };
    ExitCode::from(code)
}
