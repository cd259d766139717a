//! What the outside is asked for: files, a source of input and a sink for output, call by call.

use pi_outside::{
    Failed, Files, MemoryFiles, MemorySink, MemorySource, RealSink, RealSource, Sink, Source,
    SureFiles, SureSink, SureSource,
};
use tables_cases::{Case, bytes_of, named};

/// How many bytes are read at most.
const ROOM: usize = 4;

/// What stands in the place into which is read.
const UNREAD: u8 = b'_';

/// A kind of outside.
#[derive(Clone, Copy)]
enum Kind {
    Memory,
    Sure,
    Real,
}

/// Each kind with its word.
const KINDS: [(&str, Kind); 3] = [
    ("memory", Kind::Memory),
    ("sure", Kind::Sure),
    ("real", Kind::Real),
];

/// What is called of the outside.
#[derive(Clone, Copy)]
enum Object {
    Sink,
    Source,
    Files,
}

/// Each object with its word.
const OBJECTS: [(&str, Object); 3] = [
    ("sink", Object::Sink),
    ("source", Object::Source),
    ("files", Object::Files),
];

/// The kind with a word.
fn kind_of(word: &str) -> Option<Kind> {
    named(&KINDS, word)
}

/// The object with a word.
fn object_of(word: &str) -> Option<Object> {
    named(&OBJECTS, word)
}

/// Tells what each call of a case gives. The first step makes the object that is called: `memory`, `sure` or `real`, and
/// `sink`, `source` or `files`.
pub fn answer<R: Print + Input + AllocGlobal, F: Files>(rt: &R, files: &mut F, case: &Case) {
    let kind = kind_of(case.take_word());
    let object = object_of(case.take_word());
    let (Some(kind), Some(object)) = (kind, object) else {
        return case.lacks("a known object");
    };
    match kind {
        Kind::Memory => ask_in_memory(case, object),
        Kind::Sure => ask_sure(case, object),
        Kind::Real => ask_real(rt, files, case, object),
    }
}

/// Makes an object in memory, some of whose calls can fail, and calls it.
fn ask_in_memory(case: &Case, object: Object) {
    match object {
        Object::Sink => ask_memory_sink(case),
        Object::Source => ask_memory_source(case),
        Object::Files => ask_memory_files(case),
    }
}

/// Makes an object in memory none of whose calls fails, and calls it.
fn ask_sure(case: &Case, object: Object) {
    match object {
        Object::Sink => ask_sure_sink(case),
        Object::Source => ask_sure_source(case),
        Object::Files => ask_sure_files(case),
    }
}

/// Calls a real object.
fn ask_real<R: Print + Input + AllocGlobal, F: Files>(
    rt: &R,
    files: &mut F,
    case: &Case,
    object: Object,
) {
    match object {
        Object::Sink => write_all(case, &mut RealSink::new(rt)),
        Object::Source => read_all(case, &mut RealSource::new(rt)),
        Object::Files => read_files(case, files),
    }
}

/// A sink with room for so many bytes, and the numbers of the calls that are to fail.
fn ask_memory_sink(case: &Case) {
    let sink = MemorySink::new(case.alloc, case.take_count());
    let Some(mut sink) = case.made(sink) else {
        return;
    };
    for _ in 0..case.left() {
        let noted = sink.fail_at(case.take_number());
        case.done(noted);
    }
    write_all(case, &mut sink);
    case.tell(" taken ");
    case.tell_bytes(sink.bytes());
}

/// A sink that keeps so many bytes.
fn ask_sure_sink(case: &Case) {
    let sink = SureSink::new(case.alloc, case.take_count());
    let Some(mut sink) = case.made(sink) else {
        return;
    };
    write_all(case, &mut sink);
    case.tell(" kept ");
    case.tell_bytes(sink.bytes());
}

/// A source of bytes, how many it gives at once, and the numbers of the calls that are to fail.
fn ask_memory_source(case: &Case) {
    let word = case.take_word();
    let bytes = bytes_of(case, word);
    let most = case.take_count().max(1);
    let source = MemorySource::new(case.alloc, bytes.as_slice(), most);
    let Some(mut source) = case.made(source) else {
        return;
    };
    for _ in 0..case.left() {
        let noted = source.fail_at(case.take_number());
        case.done(noted);
    }
    read_all(case, &mut source);
}

/// A source of bytes, and how many it gives at once.
fn ask_sure_source(case: &Case) {
    let word = case.take_word();
    let bytes = bytes_of(case, word);
    let most = case.take_count().max(1);
    let source = SureSource::new(case.alloc, bytes.as_slice(), most);
    if let Some(mut source) = case.made(source) {
        read_all(case, &mut source);
    }
}

/// A file with its bytes, and the numbers of the calls that are to fail.
fn ask_memory_files(case: &Case) {
    let mut files = MemoryFiles::new(case.alloc);
    let name = case.take_word();
    let word = case.take_word();
    let bytes = bytes_of(case, word);
    let added = files.add(name, bytes.as_slice());
    case.done(added);
    for _ in 0..case.left() {
        let noted = files.fail_at(case.take_number());
        case.done(noted);
    }
    read_files(case, &mut files);
}

/// A file with its bytes.
fn ask_sure_files(case: &Case) {
    let mut files = SureFiles::new(case.alloc);
    let name = case.take_word();
    let word = case.take_word();
    let bytes = bytes_of(case, word);
    let added = files.add(name, bytes.as_slice());
    case.done(added);
    read_files(case, &mut files);
}

/// Writes a piece at each step.
fn write_all<O: Sink>(case: &Case, sink: &mut O) {
    case.take_step_end();
    for _ in 0..case.steps() {
        case.begin("; ");
        let word = case.take_word();
        let piece = bytes_of(case, word);
        tell_taken(sink.write(piece.as_slice()), case);
        case.take_step_end();
    }
}

/// Reads so many bytes at each step, each time into the same place.
fn read_all<I: Source>(case: &Case, source: &mut I) {
    let mut into = [UNREAD; ROOM];
    case.take_step_end();
    for _ in 0..case.steps() {
        case.begin("; ");
        let count = case.take_count();
        match into.get_mut(..count) {
            Some(place) => tell_taken(source.read(place), case),
            None => case.lacks("at most 4 bytes"),
        }
        case.tell(" ");
        case.tell_bytes(&into);
        case.take_step_end();
    }
}

/// Reads of a file at each step, by its name and from a place on, each time into the same place.
fn read_files<F: Files>(case: &Case, files: &mut F) {
    let mut into = [UNREAD; ROOM];
    case.take_step_end();
    for _ in 0..case.steps() {
        case.begin("; ");
        let name = case.take_word();
        let at = case.take_number();
        tell_taken(files.read_at(name, at, &mut into), case);
        case.tell(" ");
        case.tell_bytes(&into);
        case.take_step_end();
    }
}

/// Tells how many bytes were taken or read.
fn tell_taken(taken: Result<usize, Failed>, case: &Case) {
    match taken {
        Ok(count) => case.tell_count(count),
        Err(Failed) => case.tell("failed"),
    }
}
