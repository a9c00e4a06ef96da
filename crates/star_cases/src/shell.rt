// The commands of cases.

use crate::files::{append, copy_folder, counted, edit, formatted, repeated};
use crate::printed::Printed;
use star_cli::{StandardInput, command_to};
use std::alloc::Global;
use std::{fs, io};

// Appends the words of a text outside quotes.
fn push_words<'a>(words: &mut Vec<&'a str>, text: &'a str) -> io::Result<()> {
    for word in text.split_whitespace() {
        words.push(word)?;
    }
    Ok(())
}

/// Returns the words of a command. A quoted text is one word.
pub(crate) fn words_of<'a>(alloc: Global, text: &'a str) -> io::Result<Vec<&'a str>> {
    let mut words = Vec::new(alloc);
    let mut is_quoted = false;
    for part in text.split('\'') {
        if is_quoted {
            words.push(part)?;
        } else {
            push_words(&mut words, part)?;
        }
        is_quoted = !is_quoted;
    }
    Ok(words)
}

// Runs `star` with arguments and standard input.
fn run_star(rt: &HostRuntime, words: &[&str], input: &[u8]) -> io::Result<Printed> {
    let mut owned = Vec::new(rt.alloc());
    for word in words {
        owned.push(String::from_str(rt.alloc(), word)?)?;
    }
    let input = StandardInput {
        reader: input,
        is_terminal: false,
    };
    let mut printed = Printed::nothing(rt.alloc());
    printed.status = command_to(
        rt,
        owned.as_slice(),
        input,
        &mut (),
        &mut printed.out,
        &mut printed.err,
    );
    Ok(printed)
}

// Runs `star`, with standard input from a file or a here document if the last two words are one.
fn run_redirected(rt: &HostRuntime, words: &[&str], input: &[u8]) -> io::Result<Printed> {
    if let Some((file, others)) = words.split_last()
        && let Some((sign, others)) = others.split_last()
    {
        if *sign == "<<" {
            return run_star(rt, others, input);
        }
        if *sign == "<" {
            return run_star(rt, others, fs::read(rt, *file)?.as_slice());
        }
    }
    run_star(rt, words, b"")
}

// Runs a command that changes files and prints nothing.
fn change(rt: &HostRuntime, words: &[&str], input: &[u8]) -> io::Result<()> {
    match words {
        ["cat", ">", file, "<<", _] => fs::write(rt, *file, input),
        ["printf", text, ">", file] => fs::write(rt, *file, formatted(rt, text)?.as_slice()),
        ["printf", text, ">>", file] => append(rt, file, formatted(rt, text)?.as_slice()),
        ["cp", "-r", from, to] => copy_folder(rt, from, to),
        ["cp", from, to] => fs::copy(rt, *from, *to).map(|_| ()),
        ["mkdir", folder] => fs::create_dir(rt, *folder),
        ["rm", "-r", folder] => fs::remove_dir_all(rt, *folder),
        ["rm", file] => fs::remove_file(rt, *file),
        ["mv", from, to] => fs::rename(rt, *from, *to),
        ["sed", "-i", script, file] => edit(rt, script, file),
        ["yes", line, "|", "head", "-n", count, ">>", file] => {
            append(rt, file, repeated(rt, line, count)?.as_slice())
        }
        ["seq", first, last, "|", "sed", script, ">>", file] => {
            append(rt, file, counted(rt, first, last, script)?.as_slice())
        }
        _ => Err(io::Error::other("no command of cases")),
    }
}

// Prints a file.
fn show_file(rt: &HostRuntime, file: &str) -> io::Result<Printed> {
    let mut printed = Printed::nothing(rt.alloc());
    match fs::read(rt, file) {
        Ok(bytes) => printed.out = bytes,
        Err(_) => {
            let line = format!(in rt.alloc(); "cat: {file}: No such file or directory\n")?;
            printed.err = line.into_bytes();
            printed.status = 1;
        }
    }
    Ok(printed)
}

/// Runs a command with its here document.
pub(crate) fn run(rt: &HostRuntime, words: &[&str], input: &[u8]) -> io::Result<Printed> {
    match words {
        ["./star", words @ ..] => run_redirected(rt, words, input),
        ["cat", file] => show_file(rt, file),
        _ => {
            change(rt, words, input)?;
            Ok(Printed::nothing(rt.alloc()))
        }
    }
}
