//! What the words of the command line ask the program's edge for, beside what they ask the one call for.

use clap::Error;
use clap::error::ErrorKind;

/// Whether what `clap` says of words is a text that they ask for: the help or the version.
pub fn is_asked_for(said: &Error) -> bool {
    match said.kind() {
        ErrorKind::DisplayHelp | ErrorKind::DisplayVersion => true,
        _ => false,
    }
}

/// The image that words name which are no command: the second word, where it is no option. A script that is generated
/// has no image, nor has the help of a command.
pub fn image_beside(words: &[String]) -> Option<&str> {
    let command = words.first()?.as_str();
    if command == "generate" || command == "help" {
        return None;
    }
    let image = words.get(1)?.as_str();
    if image.starts_with('-') {
        None
    } else {
        Some(image)
    }
}

/// Whether the next word is the value of this one.
fn has_value_next(word: &str) -> bool {
    match word {
        "--cluster" | "--md-pages" | "--lvol" | "--uuid" => true,
        _ => false,
    }
}

/// The place of the option `--new` among the words of a `format`. A word that is the value of an option isn't it, nor
/// one behind `--`.
fn place_of_new(words: &[String]) -> Option<usize> {
    if words.first()?.as_str() != "format" {
        return None;
    }
    let mut is_value = false;
    for (place, word) in words.iter().enumerate() {
        match word.as_str() {
            "--" if !is_value => return None,
            "--new" if !is_value => return Some(place),
            word => is_value = has_value_next(word),
        }
    }
    None
}

/// Takes the option `--new` out of the words of a `format`, which the one call doesn't know, and tells whether it was
/// there. A second one is left to be refused.
pub fn take_new(words: &mut Vec<String>) -> bool {
    match place_of_new(words.as_slice()) {
        Some(place) if place < words.len() => {
            words.remove(place);
            true
        }
        _ => false,
    }
}

#[cfg(test)]
mod tests {
    use super::*;
    use command_words::refusal;
    use std::alloc::Global;
    use std::test::Fail;

    fn words_of(alloc: Global, line: &str) -> Result<Vec<String>, Fail> {
        let mut words = Vec::new(alloc);
        for word in line.split(' ') {
            words.push(String::from_str(alloc, word)?)?;
        }
        Ok(words)
    }

    /// Words that are no command, whether they ask for a text, and the image that they name.
    static REFUSED: [(&str, bool, Option<&str>); 12] = [
        ("help", true, None),
        ("help run", true, None),
        ("help nothing", false, None),
        ("--help", true, None),
        ("-V", true, None),
        ("run --help", true, None),
        ("run a.img --help", true, Some("a.img")),
        ("format -h", true, None),
        ("run a.img b.img", false, Some("a.img")),
        ("list", false, None),
        ("nothing a.img", false, Some("a.img")),
        ("generate 1", false, None),
    ];

    #[test]
    fn a_request_for_help_is_told_from_other_words(rt: HostRuntime) -> Result<(), Fail> {
        for (line, is_asked, image) in &REFUSED {
            let words = words_of(rt.alloc(), line)?;
            match refusal(rt.alloc(), words.as_slice())? {
                Some(said) => assert_eq!(rt; is_asked_for(&said), *is_asked),
                None => return Err(Fail::new("the words are a command")),
            }
            assert_eq!(rt; image_beside(words.as_slice()), *image);
        }
        Ok(())
    }

    /// Words, whether `--new` is taken out of them, and how many are left.
    static NEW: [(&str, bool, usize); 8] = [
        ("format a.img --new", true, 2),
        ("format --new a.img", true, 2),
        ("format a.img --new --new", true, 3),
        ("format --lvol --new a.img", false, 4),
        ("format --cluster 4096 --new a.img", true, 4),
        ("format -- --new", false, 3),
        ("run a.img --new", false, 3),
        ("--new format a.img", false, 3),
    ];

    #[test]
    fn the_option_on_new_stores_is_of_a_format_alone(rt: HostRuntime) -> Result<(), Fail> {
        for (line, is_new, left) in &NEW {
            let mut words = words_of(rt.alloc(), line)?;
            assert_eq!(rt; take_new(&mut words), *is_new);
            assert_eq!(rt; words.len(), *left);
        }
        Ok(())
    }
}
