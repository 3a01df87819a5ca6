//! The command `lsp`: a language server on standard input and output.

use crate::findings::{costs_of, findings_of};
use crate::served_files::{absolute_folders, headers_of, library_for, sources_of};
use bc_library_ext::EXTHDR;
use bc_run::LIBHDR;
use bc_word::Memory;
use bcpl_cli::{Cause, Failure, LinkedLibrary, LoadedSource, ServeOrder, Sources, StandardInput};
use bcpl_lsp::{
    Answer, Cost, Document, File, Finding, Job, Received, Server, read_message, write_message,
};
use bcpl_sources::Gathered;
use std::alloc::Global;
use std::io::{BufReader, BufWriter, Read, Write};
use std::rt::Files;

/// The headers of the library.
const HEADERS: [(&str, &str); 2] = [("LIBHDR", LIBHDR), ("EXTHDR", EXTHDR)];

/// How many bytes are read ahead at most: as many as a pipe holds, so that all changes that wait are seen.
const AHEAD: usize = 1 << 16;

/// How a session ended.
#[derive(Clone, Copy, PartialEq, Eq)]
pub enum Served {
    /// By `shutdown` and `exit`.
    Properly,
    /// In another way: by `exit` alone, or the streams ended.
    CutOff,
}

/// What the command line of a build of a document names, if it has these sources.
fn given_for<'d>(
    alloc: Global,
    document: &'d Document,
    sources: &[LoadedSource],
) -> Result<Sources<'d>, Memory> {
    let mut files = Vec::new(alloc);
    files.push(document.path())?;
    Ok(Sources {
        library: library_for(alloc, sources)?,
        is_json: false,
        explains_all: true,
        linked: LinkedLibrary::Whole,
        gets: Vec::new(alloc),
        includes: Vec::new(alloc),
        files,
        standard: StandardInput::none(),
    })
}

/// What is wrong with a document that has these sources.
fn checked(
    alloc: Global,
    document: &Document,
    sources: &[LoadedSource],
) -> Result<Vec<Finding>, Memory> {
    let given = given_for(alloc, document, sources)?;
    let gathered = Gathered::new(alloc, &given, sources)?;
    findings_of(alloc, document, &gathered)
}

/// How many words the code of the expressions of a document takes that has these sources.
fn measured(
    alloc: Global,
    document: &Document,
    sources: &[LoadedSource],
) -> Result<Vec<Cost>, Memory> {
    let given = given_for(alloc, document, sources)?;
    let gathered = Gathered::new(alloc, &given, sources)?;
    costs_of(alloc, &gathered)
}

/// What is wrong with a document, and the files that its GETs can name.
fn checked_with_headers<F: Files>(
    rt: &F,
    alloc: Global,
    includes: &[String],
    server: &Server,
    document: &Document,
) -> Result<(Vec<Finding>, Vec<File>), Memory> {
    let sources = sources_of(rt, alloc, server, document, includes)?;
    let findings = checked(alloc, document, sources.as_slice())?;
    Ok((findings, headers_of(alloc, &HEADERS, sources.as_slice())?))
}

/// Checks the document with this index. Returns the message to the client.
fn check<F: Files>(
    rt: &F,
    alloc: Global,
    includes: &[String],
    server: &mut Server,
    index: usize,
) -> Result<String, Memory> {
    let (findings, headers) = match server.document(index) {
        Some(document) => checked_with_headers(rt, alloc, includes, server, document)?,
        None => return Ok(String::new(alloc)),
    };
    server.set_headers(index, headers)?;
    server.publish(index, findings)
}

/// Computes how many words the code of the document with this index takes.
fn measure<F: Files>(
    rt: &F,
    alloc: Global,
    includes: &[String],
    server: &mut Server,
    index: usize,
) -> Result<(), Memory> {
    let costs = match server.document(index) {
        Some(document) => {
            let sources = sources_of(rt, alloc, server, document, includes)?;
            measured(alloc, document, sources.as_slice())?
        }
        None => return Ok(()),
    };
    server.set_costs(index, costs);
    Ok(())
}

/// Passes a message to the server, with what the server asks for.
fn answer_to<F: Files>(
    rt: &F,
    alloc: Global,
    includes: &[String],
    server: &mut Server,
    message: &[u8],
) -> Result<Answer, Memory> {
    let answer = server.take(message)?;
    match answer.job {
        Job::Measure(index) => {
            measure(rt, alloc, includes, server, index)?;
            server.take(message)
        }
        _ => Ok(answer),
    }
}

/// The indexes of the documents that a job checks.
fn checked_by(job: Job, server: &Server) -> (usize, usize) {
    match job {
        Job::Check(index) => (index, index.saturating_add(1)),
        Job::CheckAll => (0, server.len()),
        Job::Nothing | Job::Measure(_) | Job::Exit(_) => (0, 0),
    }
}

/// Writes a message. Returns whether it could be written.
fn is_sent<W: Write>(text: &str, out: &mut W) -> bool {
    text.is_empty() || write_message(text, out).is_ok()
}

/// Sends these messages. Returns whether they could be written.
fn are_sent<W: Write>(texts: &[String], out: &mut W) -> bool {
    for text in texts {
        if !is_sent(text.as_str(), out) {
            return false;
        }
    }
    true
}

/// Checks the documents that a job checks. Returns the messages to the client.
fn check_all<F: Files>(
    rt: &F,
    alloc: Global,
    includes: &[String],
    server: &mut Server,
    job: Job,
) -> Result<Vec<String>, Memory> {
    let mut texts = Vec::new(alloc);
    let (first, end) = checked_by(job, server);
    for index in first..end {
        texts.push(check(rt, alloc, includes, server, index)?)?;
    }
    Ok(texts)
}

/// The answer to what was read. The end of the input ends the session.
fn answer_to_received<F: Files>(
    rt: &F,
    alloc: Global,
    includes: &[String],
    server: &mut Server,
    received: Received,
) -> Result<Answer, Memory> {
    match received {
        Received::Text(text) => answer_to(rt, alloc, includes, server, text.as_slice()),
        Received::BadHeader => server.take_bad_header(),
        Received::End => Ok(Answer {
            text: None,
            job: Job::Exit(false),
        }),
    }
}

/// Sends the answer, if there is one. Returns whether it could be written.
fn is_answer_sent<W: Write>(text: &Option<String>, out: &mut W) -> bool {
    match text {
        Some(text) => is_sent(text.as_str(), out),
        None => true,
    }
}

/// How the session ends by a job, if it does. It ends if the messages to the client couldn't be written.
fn ended_by(job: Job, is_sent: bool) -> Option<Served> {
    match job {
        _ if !is_sent => Some(Served::CutOff),
        Job::Exit(true) => Some(Served::Properly),
        Job::Exit(false) => Some(Served::CutOff),
        Job::Nothing | Job::Check(_) | Job::CheckAll | Job::Measure(_) => None,
    }
}

/// This job. `Nothing` if it checks a document that the next message changes again and that message was read ahead:
/// the check after that one counts for both.
fn due_job(alloc: Global, server: &Server, job: Job, mut ahead: &[u8]) -> Result<Job, Memory> {
    if let Job::Check(index) = job
        && let Received::Text(text) = read_message(alloc, &mut ahead)?
        && server.is_changed_by(index, text.as_slice())?
    {
        return Ok(Job::Nothing);
    }
    Ok(job)
}

/// Reads messages and answers each, to the end of the session.
fn session<F: Files, R: Read + Drop, O: Write + Drop>(
    rt: &F,
    alloc: Global,
    includes: &[String],
    input: &mut BufReader<R>,
    out: &mut BufWriter<O>,
) -> Result<Served, Memory> {
    let mut server = Server::new(alloc);
    for _each in 0..u64::MAX {
        let received = read_message(alloc, input)?;
        let answer = answer_to_received(rt, alloc, includes, &mut server, received)?;
        let job = due_job(alloc, &server, answer.job, input.buffer())?;
        let texts = check_all(rt, alloc, includes, &mut server, job)?;
        let is_sent = is_answer_sent(&answer.text, out) && are_sent(texts.as_slice(), out);
        if let Some(ended) = ended_by(answer.job, is_sent) {
            return Ok(ended);
        }
    }
    Ok(Served::CutOff)
}

/// Runs `lsp`: reads messages and answers each, to the end of the session. Fails if memory runs out.
pub fn serve<F: Files, R: Read + Drop, O: Write + Drop>(
    rt: &F,
    alloc: Global,
    order: &ServeOrder<'_>,
    input: R,
    out: O,
) -> Result<Served, Failure> {
    let Ok(mut input) = BufReader::with_capacity(alloc, AHEAD, input) else {
        return Err(Failure::new(Cause::Memory));
    };
    let Ok(mut out) = BufWriter::new(alloc, out) else {
        return Err(Failure::new(Cause::Memory));
    };
    let includes = absolute_folders(rt, alloc, order.includes.as_slice())?;
    Ok(session(rt, alloc, includes.as_slice(), &mut input, &mut out)?)
}
