// The whole work of a job in one value system.
use crate::carrying::{Cut, carry_out};
use crate::comparison::{Related, compare_cuts};
use crate::desk::Desk;
use crate::job::Job;
use crate::narrator::Narrator;
use crate::options::Options;
use crate::report::{list, tell_distances, tell_waves};
use crate::stop::Stop;
use engine::session::Session;
use std::alloc::Global;
use std::fs::File;
use std::io;
use std::io::{BufWriter, Write};
use std::rt::Runtime;
use waveforms::dump;
use waveforms::level::Shown;

// The file that the dump goes to.
#[derive(Drop)]
struct DumpFile<'o, F> {
    path: &'o str,
    file: F,
}

fn unwritten(alloc: Global, path: &str, error: io::Error) -> Stop {
    match String::from_str(alloc, path) {
        Ok(path) => Stop::File {
            path,
            action: "written",
            error,
        },
        Err(error) => Stop::Memory(error),
    }
}

// Creates the file for the dump where the options tell a path for it.
fn create_dump<'o, R: Runtime + AllocGlobal>(
    rt: &R,
    options: &'o Options,
) -> Result<Option<DumpFile<'o, R::File>>, Stop> {
    let Some(path) = &options.dump else {
        return Ok(None);
    };
    match File::create(rt, path) {
        Ok(file) => Ok(Some(DumpFile { path, file })),
        Err(error) => Err(unwritten(rt.alloc(), path, error)),
    }
}

fn write_dump<V: Shown, F: Write + Drop>(
    alloc: Global,
    file: F,
    session: &Session<V>,
) -> io::Result<()> {
    let mut out = BufWriter::new(alloc, file)?;
    dump::write(&mut out, alloc, session)?;
    out.flush()
}

// Writes the dump of a session to its file.
fn save_dump<V: Shown, F: Write + Drop, R: Print + AllocGlobal>(
    narrator: &Narrator<R>,
    dump: DumpFile<F>,
    session: &Session<V>,
) -> Result<(), Stop> {
    let DumpFile { path, file } = dump;
    match write_dump(narrator.rt.alloc(), file, session) {
        Ok(()) => Ok(narrator.tell(format_args!("writes the changes of all lines to {path}"))?),
        Err(error) => Err(unwritten(narrator.rt.alloc(), path, error)),
    }
}

// Tells what came of the job.
fn report<V: Shown, R: Runtime + AllocGlobal>(
    narrator: &Narrator<R>,
    session: &Session<V>,
) -> Result<(), Stop> {
    tell_distances(narrator, session)?;
    narrator.tell("lists the outputs")?;
    let mut out = BufWriter::new(narrator.rt.alloc(), io::writer(narrator.rt))?;
    list(&mut out, session)?;
    out.flush()?;
    if narrator.quiet {
        return Ok(());
    }
    tell_waves(narrator, session)
}

// Does a job, reports, and compares it with the same job done otherwise. The file for the dump is created first, to tell at
// once that it cannot be.
pub fn do_job<V: Related, R: Runtime + AllocGlobal>(
    narrator: &Narrator<R>,
    job: &Job,
    options: &Options,
) -> Result<(), Stop> {
    let mut desk = Desk::<V>::new(narrator.rt.alloc(), job)?;
    let dump = create_dump(narrator.rt, options)?;
    let mut session = desk.session(job);
    let system = options.system;
    let (records, room) = (job.records, session.room());
    narrator.tell(format_args!(
        "makes a session: system {system}, {records} records, room for {room} changes a line"
    ))?;
    carry_out(narrator, job, Cut::AllFirst, &mut session)?;
    report(narrator, &session)?;
    if let Some(dump) = dump {
        save_dump(narrator, dump, &session)?;
    }
    if narrator.quiet {
        return Ok(());
    }
    compare_cuts(narrator, job, &session)?;
    V::compare_related(narrator, job, &session)
}
