// Commands that read and write files.

use crate::escapes::push_unescaped;
use std::fs::OpenOptions;
use std::io::Write;
use std::{fs, io};

// Copies the files of a folder to a new one.
fn copy_files(rt: &HostRuntime, from: &str, to: &str) -> io::Result<()> {
    fs::create_dir(rt, to)?;
    for entry in fs::read_dir(rt, from)? {
        let entry = entry?;
        let name = entry.file_name();
        let target = format!(in rt.alloc(); "{to}/{name}")?;
        fs::copy(rt, entry.path(), target.as_str())?;
    }
    Ok(())
}

/// Copies a folder to a new one, with its files and those of its folders.
pub(crate) fn copy_folder(rt: &HostRuntime, from: &str, to: &str) -> io::Result<()> {
    fs::create_dir(rt, to)?;
    for entry in fs::read_dir(rt, from)? {
        let entry = entry?;
        let name = entry.file_name();
        let target = format!(in rt.alloc(); "{to}/{name}")?;
        if entry.file_type()?.is_dir() {
            copy_files(rt, entry.path().as_str(), target.as_str())?;
        } else {
            fs::copy(rt, entry.path(), target.as_str())?;
        }
    }
    Ok(())
}

/// Appends bytes to a file.
pub(crate) fn append(rt: &HostRuntime, file: &str, bytes: &[u8]) -> io::Result<()> {
    let mut open = OpenOptions::new().append(true).create(true).open(rt, file)?;
    open.write_all(bytes)
}

/// Returns the output of `printf TEXT`.
pub(crate) fn formatted(rt: &HostRuntime, text: &str) -> io::Result<Vec<u8>> {
    let mut bytes = Vec::new(rt.alloc());
    for (part, number) in text.split("%%").zip(0usize..) {
        if part.contains('%') {
            return Err(io::Error::other("write %% for a percent sign"));
        }
        if number > 0 {
            bytes.push(b'%')?;
        }
        push_unescaped(&mut bytes, part)?;
    }
    Ok(bytes)
}

fn number_of(text: &str) -> io::Result<usize> {
    text.parse().map_err(|_| io::Error::other("no number"))
}

/// Returns the output of `yes LINE | head -n COUNT`.
pub(crate) fn repeated(rt: &HostRuntime, line: &str, count: &str) -> io::Result<Vec<u8>> {
    let mut bytes = Vec::new(rt.alloc());
    for _ in 0..number_of(count)? {
        bytes.extend_from_slice(line.as_bytes())?;
        bytes.push(b'\n')?;
    }
    Ok(bytes)
}

/// Returns the output of `seq FIRST LAST | sed SCRIPT`, with a script `s/.*/TEXT/`.
pub(crate) fn counted(
    rt: &HostRuntime,
    first: &str,
    last: &str,
    script: &str,
) -> io::Result<Vec<u8>> {
    let text = script
        .strip_prefix("s/.*/")
        .and_then(|text| text.strip_suffix('/'));
    let Some(text) = text else {
        return Err(io::Error::other("seq is followed by sed 's/.*/TEXT/'"));
    };
    let mut bytes = Vec::new(rt.alloc());
    for number in number_of(first)?..=number_of(last)? {
        push_with(rt, &mut bytes, text, number)?;
    }
    Ok(bytes)
}

// Appends a line of text, with the number in place of each `&`.
fn push_with(rt: &HostRuntime, bytes: &mut Vec<u8>, text: &str, number: usize) -> io::Result<()> {
    let number = format!(in rt.alloc(); "{number}")?;
    for (part, place) in text.split('&').zip(0usize..) {
        if place > 0 {
            bytes.extend_from_slice(number.as_bytes())?;
        }
        bytes.extend_from_slice(part.as_bytes())?;
    }
    bytes.push(b'\n')?;
    Ok(())
}

// Appends a character to the parts of a script of `sed`. Returns whether it is a backslash that escapes
// the next one.
fn push_part(
    rt: &HostRuntime,
    parts: &mut Vec<String>,
    letter: char,
    is_escaped: bool,
) -> io::Result<bool> {
    if letter == '/' && !is_escaped {
        parts.push(String::new(rt.alloc()))?;
        return Ok(false);
    }
    if letter == '\\' && !is_escaped {
        return Ok(true);
    }
    if let Some(part) = parts.last_mut() {
        part.push(letter)?;
    }
    Ok(false)
}

// Returns the parts of a script of `sed`, between slashes.
fn parts_of(rt: &HostRuntime, script: &str) -> io::Result<Vec<String>> {
    let mut parts = Vec::new(rt.alloc());
    parts.push(String::new(rt.alloc()))?;
    let mut is_escaped = false;
    for letter in script.chars() {
        is_escaped = push_part(rt, &mut parts, letter, is_escaped)?;
    }
    Ok(parts)
}

// Appends a line with a change from an old to a new text, or nothing if it is removed.
fn push_changed(made: &mut String, line: &str, change: Option<(&str, &str)>) -> io::Result<()> {
    let Some((old, new)) = change else {
        return Ok(());
    };
    let Some((before, after)) = line.split_once(old) else {
        return Err(io::Error::other("sed finds nothing to change"));
    };
    made.push_str(before)?;
    made.push_str(new)?;
    made.push_str(after)?;
    Ok(())
}

// Returns a text in which one line is changed or removed.
fn with_change(
    rt: &HostRuntime,
    text: &str,
    place: usize,
    change: Option<(&str, &str)>,
) -> io::Result<String> {
    let mut made = String::new(rt.alloc());
    for (line, number) in text.split_inclusive('\n').zip(1usize..) {
        if number == place {
            push_changed(&mut made, line, change)?;
        } else {
            made.push_str(line)?;
        }
    }
    Ok(made)
}

/// Runs `sed -i SCRIPT FILE`.
pub(crate) fn edit(rt: &HostRuntime, script: &str, file: &str) -> io::Result<()> {
    let text = fs::read_to_string(rt, file)?;
    let parts = parts_of(rt, script)?;
    let made = match parts.as_slice() {
        [only] if only.as_str() == "$d" => {
            let last = text.split_inclusive('\n').count();
            with_change(rt, text.as_str(), last, None)?
        }
        [only] => {
            let place = number_of(only.strip_suffix('d').unwrap_or(""))?;
            with_change(rt, text.as_str(), place, None)?
        }
        [first, old, new, last] if last.is_empty() => {
            let place = number_of(first.strip_suffix('s').unwrap_or(""))?;
            let change = Some((old.as_str(), new.as_str()));
            with_change(rt, text.as_str(), place, change)?
        }
        _ => return Err(io::Error::other("no script of sed: Ns/OLD/NEW/, Nd or $d")),
    };
    fs::write(rt, file, made.as_str())
}
