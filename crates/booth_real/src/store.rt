//! What a host stores: the records of its directory, and the clock in the same directory.

use crate::clocks::{Clocks, Opening, Told};
use crate::mail::unopened;
use crate::records::Records;
use crate::telling::Telling;
use booth_base::{Name, PathText};
use booth_rec::Record;
use std::alloc::Global;
use std::io;

/// The records of a directory and its clock.
#[derive(Drop)]
pub(crate) struct Store {
    /// The directory of the records, once a place with one was opened.
    records: Option<Records>,
    clocks: Clocks,
    /// How many milliseconds a write of a record may take, if that is limited.
    limit: Option<u64>,
}

impl Store {
    /// Returns a store without an open directory. Its `now` reports the wall clock.
    pub(crate) fn new() -> Store {
        Store {
            records: None,
            clocks: Clocks::new(),
            limit: None,
        }
    }

    /// Limits each write of a record to this many milliseconds, in directories that are opened from now on.
    pub(crate) fn limit_writes(&mut self, limit: Option<u64>) {
        self.limit = limit;
    }

    /// Returns the source of the time.
    pub(crate) fn clocks(&self) -> &Clocks {
        &self.clocks
    }

    /// Returns whether a directory is open.
    pub(crate) fn has_records(&self) -> bool {
        self.records.is_some()
    }

    /// Makes `now` report the clock of this directory even before the directory is opened.
    pub(crate) fn await_clock(&mut self, rt: &HostRuntime, directory: &PathText) -> io::Result<()> {
        self.clocks.await_clock(rt, directory)
    }

    /// Makes the host tell the time by the clock that a daemon writes to this directory.
    pub(crate) fn share_clock(&mut self, rt: &HostRuntime, directory: &PathText) -> io::Result<()> {
        self.clocks.share_clock(rt, directory)
    }

    /// Reads the clock.
    pub(crate) fn now(&mut self) -> io::Result<Told> {
        self.clocks.now()
    }

    /// Closes the directory and its clock.
    pub(crate) fn leave(&mut self) {
        self.records = None;
        self.clocks.leave();
    }

    /// Opens this directory and its clock, or none if the path is empty.
    pub(crate) fn open(
        &mut self,
        rt: &HostRuntime,
        alloc: Global,
        directory: &PathText,
        telling: &mut Telling,
    ) -> io::Result<()> {
        if directory.as_str().is_empty() {
            return Ok(());
        }
        let opened = Records::open(rt, alloc, directory, self.limit);
        let records = telling.told(directory.as_str().as_bytes(), opened)?;
        self.records = Some(records);
        self.begin_clock(rt, directory, telling)
    }

    // Tells the time by the clock of this directory, which is locked.
    fn begin_clock(
        &mut self,
        rt: &HostRuntime,
        directory: &PathText,
        telling: &mut Telling,
    ) -> io::Result<()> {
        match self.clocks.begin(rt, directory) {
            Ok(Opening::Kept) => Ok(()),
            Ok(Opening::ReadOnly) => {
                telling.read_only(directory);
                Ok(())
            }
            Err(error) => {
                telling.no_clock(&error);
                self.records = None;
                Err(error)
            }
        }
    }

    /// Writes the clock's current reading to disk, once a minute.
    pub(crate) fn keep_clock(&mut self, rt: &HostRuntime, telling: &mut Telling) {
        let Some(records) = &self.records else {
            return;
        };
        if let Some(answer) = self.clocks.keep(rt, records.directory()) {
            telling.clock_keep(&answer);
        }
    }

    /// Returns the record in a ticket's file, if there is one.
    pub(crate) fn read(
        &mut self,
        rt: &HostRuntime,
        ticket: &Name,
        telling: &mut Telling,
    ) -> io::Result<Option<Record>> {
        let Some(records) = &mut self.records else {
            return Err(unopened());
        };
        let found = records.read(rt, ticket)?;
        if found.is_strange {
            telling.strange(ticket);
        }
        Ok(found.record)
    }

    /// Writes this record to a ticket's file; if the clock is not on the disk yet, it writes that first.
    pub(crate) fn write(
        &mut self,
        rt: &HostRuntime,
        ticket: &Name,
        record: &Record,
    ) -> io::Result<()> {
        let Some(records) = &mut self.records else {
            return Err(unopened());
        };
        self.clocks.settle(rt, records.directory())?;
        records.write(rt, ticket, record)
    }

    /// Returns the term of this member's lease of a ticket, by the records that were read and written. It is 0 if the
    /// member has no lease, or no directory is open.
    pub(crate) fn lease_term(&self, ticket: &Name) -> u32 {
        match &self.records {
            Some(records) => records.lease_term(ticket),
            None => 0,
        }
    }

    /// Returns whether a next write can be prepared, probably in less than this many milliseconds.
    pub(crate) fn can_prepare(&self, limit_ms: u64) -> bool {
        match &self.records {
            Some(records) => records.can_prepare(limit_ms),
            None => false,
        }
    }

    /// Prepares the next write of one ticket, so that it waits for two syncs and not for three. It takes no further
    /// step after the limit in milliseconds. A failure is left to that write, which then has all its steps.
    pub(crate) fn prepare_one(&mut self, rt: &HostRuntime, limit_ms: u64) {
        if let Some(records) = &mut self.records {
            let _ = records.prepare_one(rt, limit_ms);
        }
    }
}
