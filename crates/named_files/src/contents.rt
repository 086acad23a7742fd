//! What a job's files contain, of which one may be standard input.

ghost use Rattle.std.specs.Prelude.{◌≡◌, [], ◌∷◌, All, IfOk, IfErr, map, option_map};
ghost use Rattle.std.specs.Prelude.{option_to_list, unwrap_or};
ghost use Rattle.plan_answers.specs.Lent.{bytes_of};
ghost use Rattle.plan_answers.specs.Schedules.{said_by, source_map};
ghost use Rattle.command_words.specs.Files.{file_names};
ghost use Rattle.command_words.specs.Jobs.{all_files, files_of};
ghost use Rattle.named_files.specs.Contents.{AreContents, AreRead, HasReadOnce, IsFileRead};
ghost use Rattle.named_files.specs.Contents.{contents_in};
ghost use Rattle.named_files.specs.DistinctFiles.{IsReadOf};
ghost use Rattle.named_files.specs.Notes.{IsRefused};

use crate::distinct_files::DistinctFiles;
use crate::notes::{JobFailure, read_failure};
use crate::system::System;
use command_words::{JobFiles, Text};
use plan_answers::ScheduleSource;
use std::alloc::{AllocError, Global};
use std::io;
use std::io::Read;

/// What a job's files contain, each by what it is for.
#[derive(Drop)]
pub struct Contents {
    pub image: Option<Vec<u8>>,
    pub list: Option<Vec<u8>>,
    pub schedule: Option<Vec<u8>>,
    pub wiring: Option<Vec<u8>>,
    pub scripts: Vec<Vec<u8>>,
}

/// Reads a job's files, one after another, each once. The first that can't be read is the error.
pub fn read_contents<S: System, I: Read>(
    system: &S,
    alloc: Global,
    reads: &mut S::Reads,
    apart: &DistinctFiles,
    files: JobFiles<'_>,
    input: &mut I,
) -> Result<Contents, JobFailure>
    requires { file_names files ≡ files_of apart.now }
    ensures contents { IfOk result (λ contents. AreContents (S.holds system.now)
        (I.remaining input.old) (file_names files.entry) (contents_in contents)
        (I.remaining input.new)) }
    ensures note { IfErr result (λ missed. IsRefused missed) }
    ensures read { HasReadOnce (all_files (file_names files.entry))
        (S.were_read reads.old) (S.were_read reads.new) }
{
    Ok(Contents {
        image: read_option(system, alloc, reads, apart, files.image, input)?,
        list: read_option(system, alloc, reads, apart, files.list, input)?,
        schedule: read_option(system, alloc, reads, apart, files.schedule, input)?,
        wiring: read_option(system, alloc, reads, apart, files.wiring, input)?,
        scripts: read_files(system, alloc, reads, apart, files.scripts, input)?,
    })
}

/// What a file contains, where one is named.
fn read_option<S: System, I: Read>(
    system: &S,
    alloc: Global,
    reads: &mut S::Reads,
    apart: &DistinctFiles,
    name: Option<&Text>,
    input: &mut I,
) -> Result<Option<Vec<u8>>, JobFailure>
    requires { All (IsReadOf apart.now) (option_to_list (bytes_of name)) }
    ensures content { IfOk result (λ file. AreRead (S.holds system.now) (I.remaining input.old)
        (option_to_list (bytes_of name.entry))
        (option_to_list (option_map (λ file. file.items) file)) (I.remaining input.new)) }
    ensures note { IfErr result (λ missed. IsRefused missed) }
    ensures read { HasReadOnce (option_to_list (bytes_of name.entry))
        (S.were_read reads.old) (S.were_read reads.new) }
{
    match name {
        Some(name) => Ok(Some(read_file(system, alloc, reads, apart, name, input)?)),
        None => Ok(None),
    }
}

/// What the files contain, in the order of their names.
fn read_files<S: System, I: Read>(
    system: &S,
    alloc: Global,
    reads: &mut S::Reads,
    apart: &DistinctFiles,
    names: &[Text],
    input: &mut I,
) -> Result<Vec<Vec<u8>>, JobFailure>
    requires { All (IsReadOf apart.now) names.now }
    ensures content { IfOk result (λ files. AreRead (S.holds system.now) (I.remaining input.old)
        names.now (map (λ file. file.items) files.items) (I.remaining input.new)) }
    ensures note { IfErr result (λ missed. IsRefused missed) }
    ensures read { HasReadOnce names.now
        (S.were_read reads.old) (S.were_read reads.new) }
{
    let mut files = Vec::new(alloc);
    for name in names {
        let file = read_file(system, alloc, reads, apart, name, input)?;
        files.push(file).map_err(|_| AllocError)?;
    }
    Ok(files)
}

/// What a file contains, or what is told where it can't be read.
fn read_file<S: System, I: Read>(
    system: &S,
    alloc: Global,
    reads: &mut S::Reads,
    apart: &DistinctFiles,
    name: &Text,
    input: &mut I,
) -> Result<Vec<u8>, JobFailure>
    requires { IsReadOf apart.now name.now }
    ensures content { IfOk result (λ file. IsFileRead (S.holds system.now) (I.remaining input.old)
        name.now file.items (I.remaining input.new)) }
    ensures note { IfErr result (λ missed. IsRefused missed) }
    ensures read { HasReadOnce (name.now ∷ [])
        (S.were_read reads.old) (S.were_read reads.new) }
{
    match read_bytes(system, alloc, reads, apart, name, input) {
        Ok(file) => Ok(file),
        Err(error) => Err(read_failure(alloc, name, &error)),
    }
}

/// The bytes of a file: standard input to its end, where its name is `-`.
fn read_bytes<S: System, I: Read>(
    system: &S,
    alloc: Global,
    reads: &mut S::Reads,
    apart: &DistinctFiles,
    name: &Text,
    input: &mut I,
) -> io::Result<Vec<u8>>
    requires { IsReadOf apart.now name.now }
    ensures content { IfOk result (λ file. IsFileRead (S.holds system.now) (I.remaining input.old)
        name.now file.items (I.remaining input.new)) }
    ensures read { HasReadOnce (name.now ∷ [])
        (S.were_read reads.old) (S.were_read reads.new) }
{
    if !name.is_input() {
        return system.read(reads, apart, name.as_str());
    }
    let mut file = Vec::new(alloc);
    input.read_to_end(&mut file)?;
    Ok(file)
}

/// The bytes of a file, where one was read.
pub fn slice_of(file: &Option<Vec<u8>>) -> Option<&[u8]>
    ensures { bytes_of result ≡ option_map (λ file. file.items) file.now }
{
    match file {
        Some(file) => Some(file.as_slice()),
        None => None,
    }
}

/// The bytes of a file; none where none was read.
pub fn text_of(file: &Option<Vec<u8>>) -> &[u8]
    ensures { result.now ≡ unwrap_or (option_map (λ file. file.items) file.now) [] }
{
    match file {
        Some(file) => file.as_slice(),
        None => &[],
    }
}

/// Where a schedule comes from, with its text, where a file has one.
pub fn source_with<'a>(source: &ScheduleSource<Text>, text: &'a [u8]) -> ScheduleSource<&'a [u8]>
    ensures { said_by result ≡ source_map (λ _. text.entry.now) source.now }
{
    match source {
        ScheduleSource::Plan(planning) => ScheduleSource::Plan(*planning),
        ScheduleSource::Text(_) => ScheduleSource::Text(text),
    }
}
