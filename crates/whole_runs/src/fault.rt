//! Why a row is not as it says.
use crate::rows::Device;
use bound_base::NoMemory;
use bound_run::Status;
use compared::{Differs, Fails};
use std::alloc::AllocError;

/// Why a row is not as it says.
#[derive(Clone, Copy, Debug)]
pub enum RowFault<'a> {
    /// There was not enough memory to try it.
    NoMemory,
    /// It has more lines than a report of its kind, or bytes that are no text.
    NoReport,
    /// How the run ended.
    Status(Differs<&'a str, Status>),
    /// A byte of what a sink got, and its place in it, from 0.
    Byte(Differs<(&'a str, Device, usize), Option<u8>>),
    /// What else is to hold of the run.
    Fails(Fails<&'a str>),
}

impl From<NoMemory> for RowFault<'_> {
    fn from(_: NoMemory) -> Self {
        RowFault::NoMemory
    }
}

impl From<AllocError> for RowFault<'_> {
    fn from(_: AllocError) -> Self {
        RowFault::NoMemory
    }
}

impl<'a> From<Differs<&'a str, Status>> for RowFault<'a> {
    fn from(differs: Differs<&'a str, Status>) -> Self {
        RowFault::Status(differs)
    }
}

impl<'a> From<Differs<(&'a str, Device, usize), Option<u8>>> for RowFault<'a> {
    fn from(differs: Differs<(&'a str, Device, usize), Option<u8>>) -> Self {
        RowFault::Byte(differs)
    }
}

impl<'a> From<Fails<&'a str>> for RowFault<'a> {
    fn from(fails: Fails<&'a str>) -> Self {
        RowFault::Fails(fails)
    }
}
