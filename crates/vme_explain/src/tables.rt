//! The texts, one table for each kind of code.

mod faults;
mod files;
mod lines;
mod replies;
mod requests;
mod signals;
mod transfers;
mod warnings;

pub(crate) use faults::FAULTS;
pub(crate) use files::FILES;
pub(crate) use lines::LINES;
pub(crate) use replies::REPLIES;
pub(crate) use requests::REQUESTS;
pub(crate) use signals::SIGNALS;
pub(crate) use transfers::TRANSFERS;
pub(crate) use warnings::WARNINGS;
