// Where sessions are made.
use crate::job::Job;
use crate::stop::Stop;
use engine::session::Session;
use events::record::EventRecord;
use std::alloc::Global;
use waveforms::level::Shown;

// What a session is lent: a store, which it writes before it reads it, and the values that the inputs begin with.
#[derive(Drop)]
pub struct Desk<V> {
    store: Vec<EventRecord<V>>,
    starts: Vec<V>,
}

impl<V: Shown> Desk<V> {
    // A desk at which a session of the job can be made.
    pub fn new(alloc: Global, job: &Job) -> Result<Desk<V>, Stop> {
        let netlist = job.netlist();
        let (records, needed) = (job.records, netlist.lines().saturating_mul(2));
        if records < needed {
            return Err(Stop::Store { records, needed });
        }
        let blank = EventRecord {
            tick: 0,
            value: V::START,
        };
        let store = vec![in alloc; blank; records]?;
        let starts = vec![in alloc; V::START; netlist.inputs()]?;
        Session::check(&netlist, &store, &starts)?;
        Ok(Desk { store, starts })
    }

    // Makes the session of the job.
    pub fn session(&mut self, job: &Job) -> Session<'_, V> {
        Session::make(job.netlist(), &mut self.store, &self.starts)
    }
}
