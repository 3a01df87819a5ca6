//! The files of one folder, which a run opens by name.

use bc_machine::DeviceFault;
use bc_machine_defs::Side;
use std::alloc::Global;
use std::io::{BufReader, BufWriter, Read, Write};
use std::rt::Files;
use std::{fs, str};

/// A file that the run opened.
#[derive(Drop)]
struct Opened<D> {
    name: Vec<u8>,
    /// Its device, until the stream is ended.
    device: Option<D>,
}

/// The place of the stream with this name, if it isn't ended.
fn open_at<D>(table: &[Opened<D>], name: &[u8]) -> Option<usize> {
    for (place, stream) in table.iter().enumerate() {
        if stream.name.as_slice() == name && stream.device.is_some() {
            return Some(place);
        }
    }
    None
}

/// Puts the device of this name into the table, instead of an ended one with this name if there is one. Returns its
/// place, or `None` if an allocation fails.
fn put<D: Drop>(
    alloc: Global,
    table: &mut Vec<Opened<D>>,
    name: &[u8],
    device: D,
) -> Option<usize> {
    for (place, stream) in table.iter_mut().enumerate() {
        if stream.name.as_slice() == name {
            stream.device = Some(device);
            return Some(place);
        }
    }
    let place = table.len();
    let name = Vec::from_slice(alloc, name).ok()?;
    let device = Some(device);
    table.push(Opened { name, device }).ok()?;
    Some(place)
}

/// Whether this is a name without separators, and not that of a hidden file or of the folder itself.
fn is_plain(name: &[u8]) -> bool {
    for byte in name {
        if !byte.is_ascii_alphanumeric() && !matches!(*byte, b'.' | b'_' | b'-') {
            return false;
        }
    }
    !name.is_empty() && !name.starts_with(b".")
}

/// A folder, and the files in it that the run opened.
#[derive(Drop)]
pub struct Folder<'r, 'p, F: Files> {
    rt: &'r F,
    alloc: Global,
    path: &'p str,
    inputs: Vec<Opened<BufReader<F::File>>>,
    outputs: Vec<Opened<BufWriter<F::File>>>,
}

impl<'r, 'p, F: Files> Folder<'r, 'p, F> {
    /// The folder with this path.
    pub fn new(rt: &'r F, alloc: Global, path: &'p str) -> Folder<'r, 'p, F> {
        Folder {
            rt,
            alloc,
            path,
            inputs: Vec::new(alloc),
            outputs: Vec::new(alloc),
        }
    }

    /// The path of the file with this name, if there is one or if one can be made. A link, a folder or a device isn't a
    /// file of the folder.
    fn path_of(&self, name: &[u8]) -> Option<String> {
        if !is_plain(name) {
            return None;
        }
        let name = str::from_utf8(name).ok()?;
        let folder = self.path;
        let path = format!(in self.alloc; "{folder}/{name}").ok()?;
        match fs::symlink_metadata(self.rt, path.as_str()) {
            Ok(found) if !found.is_file() => None,
            _ => Some(path),
        }
    }

    /// The place of the input with this name, which is opened unless it is open.
    fn find_input(&mut self, name: &[u8]) -> Option<usize> {
        if open_at(self.outputs.as_slice(), name).is_some() {
            return None;
        }
        if let Some(place) = open_at(self.inputs.as_slice(), name) {
            return Some(place);
        }
        let path = self.path_of(name)?;
        let file = fs::open(self.rt, path.as_str()).ok()?;
        let reader = BufReader::new(self.alloc, file).ok()?;
        put(self.alloc, &mut self.inputs, name, reader)
    }

    /// The place of the output with this name, which is made unless it is open.
    fn find_output(&mut self, name: &[u8]) -> Option<usize> {
        if open_at(self.inputs.as_slice(), name).is_some() {
            return None;
        }
        if let Some(place) = open_at(self.outputs.as_slice(), name) {
            return Some(place);
        }
        let path = self.path_of(name)?;
        let file = fs::create(self.rt, path.as_str()).ok()?;
        let writer = BufWriter::new(self.alloc, file).ok()?;
        put(self.alloc, &mut self.outputs, name, writer)
    }

    /// The place of the stream with this name, counted from 0, or `None` if there is none.
    pub fn find(&mut self, side: Side, name: &[u8]) -> Option<usize> {
        match side {
            Side::Input => self.find_input(name),
            Side::Output => self.find_output(name),
        }
    }

    /// The next byte of an input; `None` at its end, and if it is ended.
    pub fn read(&mut self, place: usize) -> Result<Option<u8>, DeviceFault> {
        let Some(stream) = self.inputs.get_mut(place) else {
            return Ok(None);
        };
        let Some(reader) = &mut stream.device else {
            return Ok(None);
        };
        let mut byte = [0u8];
        match reader.read(&mut byte) {
            Ok(0) => Ok(None),
            Ok(_) => Ok(Some(byte[0])),
            Err(_) => Err(DeviceFault),
        }
    }

    /// Writes a byte to an output. It is dropped if the output is ended.
    pub fn write(&mut self, place: usize, byte: u8) -> Result<(), DeviceFault> {
        let Some(stream) = self.outputs.get_mut(place) else {
            return Ok(());
        };
        let Some(writer) = &mut stream.device else {
            return Ok(());
        };
        match writer.write(&[byte]) {
            Ok(0) => Err(DeviceFault),
            Ok(_) => Ok(()),
            Err(_) => Err(DeviceFault),
        }
    }

    /// Ends an input.
    fn end_input(&mut self, place: usize) {
        if let Some(stream) = self.inputs.get_mut(place) {
            stream.device = None;
        }
    }

    /// Flushes an output and ends it.
    fn end_output(&mut self, place: usize) -> Result<(), DeviceFault> {
        if let Some(stream) = self.outputs.get_mut(place) {
            if let Some(writer) = &mut stream.device
                && writer.flush().is_err()
            {
                return Err(DeviceFault);
            }
            stream.device = None;
        }
        Ok(())
    }

    /// Ends a stream.
    pub fn end(&mut self, side: Side, place: usize) -> Result<(), DeviceFault> {
        match side {
            Side::Input => {
                self.end_input(place);
                Ok(())
            }
            Side::Output => self.end_output(place),
        }
    }

    /// Flushes every output, even after one has failed.
    pub fn close(&mut self) -> Result<(), DeviceFault> {
        let mut closed = Ok(());
        for place in 0..self.outputs.len() {
            if self.end_output(place).is_err() {
                closed = Err(DeviceFault);
            }
        }
        closed
    }
}
