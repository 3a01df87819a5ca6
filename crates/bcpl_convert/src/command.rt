//! The command `convert`: reads the sources, converts them, writes them and reports what must be done by hand.

use crate::job::{Job, Target, write_job};
use crate::lawful::Given;
use crate::protected_files::spare;
use crate::rounds::{
    Converted, MOST_ROUNDS, Round, Shown, compiled_texts, first_round, further_round, lawful_in,
    may_change_any, needs_another_round, texts_up_to_here,
};
use crate::summary::{add_told, told_of};
use bc_convert::{Lawful, NameList, OldNames, renamings};
use bc_word::Memory;
use bcpl_cli::{Cause, ConvertOrder, ConvertTo, Escaped, Failure, Places, contents, is_folder};
use std::alloc::Global;
use std::fs;
use std::io::Write;
use std::rt::Files;

/// The failure of a command after which `count` things must be done by hand. `told` has the lines about them.
pub fn by_hand(order: &ConvertOrder<'_>, count: usize, told: String) -> Failure {
    let failure = Failure::new(Cause::ByHand(count));
    match order.places {
        Places::Never => failure,
        Places::Always | Places::OnTerminal | Places::Json => failure.with(told),
    }
}

/// The text of the list of names; empty if no list is given.
///
/// # Errors
///
/// Fails if the list can't be read.
pub fn list_text<F: Files>(
    rt: &F,
    alloc: Global,
    order: &ConvertOrder<'_>,
) -> Result<Vec<u8>, Failure> {
    match order.library {
        Some(path) => contents(rt, alloc, path),
        None => Ok(Vec::new(alloc)),
    }
}

/// Fails if the list of names has a faulty line.
///
/// # Errors
///
/// The failure with all faulty lines.
pub fn refuse_list(
    alloc: Global,
    order: &ConvertOrder<'_>,
    text: &[u8],
    names: &NameList<'_>,
) -> Result<(), Failure> {
    let complaints = names.complaints.as_slice();
    match order.library {
        Some(path) if !complaints.is_empty() => {
            let told = told_of(alloc, path, text, complaints)?;
            Err(by_hand(order, complaints.len(), told))
        }
        _ => Ok(()),
    }
}

/// The failure to read the file with this path. If that is a folder, it has a hint on how to convert one.
fn read_failure<F: Files>(rt: &F, alloc: Global, path: &str, failure: Failure) -> Failure {
    if !is_folder(rt, path) {
        return failure;
    }
    let shown = Escaped(path);
    let told = format!(in alloc;
        "{shown}: this is a folder\n  help: to convert all sources in it, use bcpl convert --project {shown} --out NEW\n"
    );
    match told {
        Ok(told) => failure.with(told),
        Err(_) => failure,
    }
}

/// The texts of the sources.
fn texts_of<F: Files>(
    rt: &F,
    alloc: Global,
    order: &ConvertOrder<'_>,
) -> Result<Vec<Vec<u8>>, Failure> {
    let mut texts = Vec::new(alloc);
    for file in &order.files {
        match order.standard.contents(rt, alloc, file) {
            Ok(text) => texts.push(text)?,
            Err(failure) => return Err(read_failure(rt, alloc, file, failure)),
        }
    }
    Ok(texts)
}

/// For each of these texts of the sources whether it builds as it is.
fn lawful_texts<F: Files>(
    rt: &F,
    alloc: Global,
    order: &ConvertOrder<'_>,
    texts: &[Vec<u8>],
    round: Round<'_>,
) -> Result<Vec<Lawful>, Memory> {
    let given = Given {
        paths: order.files.as_slice(),
        texts,
    };
    lawful_in(rt, alloc, given, round)
}

/// What these texts show together.
fn shown_by(
    alloc: Global,
    texts: &[Vec<u8>],
    library: &OldNames<'_>,
    round: Round<'_>,
) -> Result<Shown, Memory> {
    let compiled = compiled_texts(alloc, round.defines, texts)?;
    Shown::by(alloc, compiled.as_slice(), library)
}

/// The conversions of these texts in the first round.
fn converted_first<F: Files>(
    rt: &F,
    alloc: Global,
    order: &ConvertOrder<'_>,
    library: &OldNames<'_>,
    texts: &[Vec<u8>],
) -> Result<Vec<Converted>, Memory> {
    let round = Round::first(order);
    let shown = shown_by(alloc, texts, library, round)?;
    let lawful = lawful_texts(rt, alloc, order, texts, round)?;
    first_round(
        alloc,
        texts,
        lawful.as_slice(),
        shown.options(round, library),
    )
}

/// Converts the texts once more. Returns whether that changes one.
fn convert_again<F: Files>(
    rt: &F,
    alloc: Global,
    order: &ConvertOrder<'_>,
    library: &OldNames<'_>,
    converted: &mut [Converted],
) -> Result<bool, Memory> {
    let round = Round::first(order).next();
    let texts = texts_up_to_here(alloc, converted)?;
    let lawful = lawful_texts(rt, alloc, order, texts.as_slice(), round)?;
    if !may_change_any(lawful.as_slice()) {
        return Ok(false);
    }
    let shown = shown_by(alloc, texts.as_slice(), library, round)?;
    further_round(
        alloc,
        converted,
        lawful.as_slice(),
        shown.options(round, library),
    )
}

/// The conversions of these texts, in as many rounds as change something.
fn converted_in_rounds<F: Files>(
    rt: &F,
    alloc: Global,
    order: &ConvertOrder<'_>,
    library: &OldNames<'_>,
    texts: &[Vec<u8>],
) -> Result<Vec<Converted>, Memory> {
    let mut converted = converted_first(rt, alloc, order, library, texts)?;
    if !needs_another_round(Round::first(order), converted.as_slice()) {
        return Ok(converted);
    }
    for _ in 0..MOST_ROUNDS {
        if !convert_again(rt, alloc, order, library, converted.as_mut_slice())? {
            break;
        }
    }
    Ok(converted)
}

/// The conversion of each source, and where it goes.
fn jobs_of<'a>(
    alloc: Global,
    order: &ConvertOrder<'a>,
    texts: Vec<Vec<u8>>,
    all: Vec<Converted>,
) -> Result<Vec<Job<'a>>, Failure> {
    let mut jobs = Vec::new(alloc);
    for ((file, old), converted) in order.files.iter().zip(texts).zip(all) {
        let is_changed = old.as_slice() != converted.text();
        let to = Target::of(alloc, order.to, file, is_changed)?;
        jobs.push(Job {
            file: order.standard.name_of(file),
            old,
            converted,
            to,
            links: order.links,
        })?;
    }
    Ok(jobs)
}

/// Creates the folder of the results, if there is none.
fn make_folder<F: Files>(rt: &F, alloc: Global, order: &ConvertOrder<'_>) -> Result<(), Failure> {
    match order.to {
        ConvertTo::Folder(folder) => match fs::create_dir_all(rt, folder) {
            Ok(()) => Ok(()),
            Err(error) => Err(Failure::io(alloc, &error, folder)),
        },
        _ => Ok(()),
    }
}

/// Fails with everything that must be done by hand, if there is anything.
fn tell_jobs(alloc: Global, order: &ConvertOrder<'_>, jobs: &[Job<'_>]) -> Result<(), Failure> {
    let mut count: usize = 0;
    let mut told = String::new(alloc);
    for job in jobs {
        let complaints = job.converted.conversion.complaints.as_slice();
        count = count.saturating_add(complaints.len());
        add_told(
            alloc,
            &mut told,
            job.old_path(),
            job.old.as_slice(),
            complaints,
        )?;
    }
    if count == 0 {
        Ok(())
    } else {
        Err(by_hand(order, count, told))
    }
}

/// Refuses a target that has the name of its source if that is standard input.
fn refuse_nameless(alloc: Global, order: &ConvertOrder<'_>) -> Result<(), Failure> {
    match order.to {
        ConvertTo::Standard | ConvertTo::File(_) => Ok(()),
        ConvertTo::Folder(_) | ConvertTo::Source => order.standard.refuse_place(
            alloc,
            "a result that goes here needs a file's name; use --out",
        ),
    }
}

/// Converts the sources with these names of an old library, writes the results and reports what must be done by hand.
fn convert_with<F: Files, O: Write + Drop>(
    rt: &F,
    alloc: Global,
    order: &ConvertOrder<'_>,
    library: &OldNames<'_>,
    output: (&mut O, bool),
) -> Result<(), Failure> {
    let (out, is_terminal) = output;
    let texts = texts_of(rt, alloc, order)?;
    let converted = converted_in_rounds(rt, alloc, order, library, texts.as_slice())?;
    let jobs = jobs_of(alloc, order, texts, converted)?;
    spare(rt, alloc, &*order, jobs.as_slice())?;
    make_folder(rt, alloc, order)?;
    for job in &jobs {
        write_job(rt, alloc, job, is_terminal, out)?;
    }
    tell_jobs(alloc, order, jobs.as_slice())
}

/// Converts old sources, writes the results and reports what must be done by hand. Even then everything is written.
/// `output` is standard output, and whether that is a terminal, to which control characters go as escapes.
///
/// # Errors
///
/// Fails if a file can't be read or written, if a file to be written would be lost, if an allocation fails, or if
/// something must be done by hand. If the list of names has a faulty line, nothing is written.
pub fn convert_file<F: Files, O: Write + Drop>(
    rt: &F,
    alloc: Global,
    order: &ConvertOrder<'_>,
    output: (&mut O, bool),
) -> Result<(), Failure> {
    refuse_nameless(alloc, order)?;
    let list = list_text(rt, alloc, order)?;
    let names = renamings(alloc, list.as_slice())?;
    refuse_list(alloc, order, list.as_slice(), &names)?;
    convert_with(rt, alloc, order, &names.list, output)
}
