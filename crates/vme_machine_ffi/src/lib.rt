//! `libvme_machine`: machines of boards on one backplane (ANSI/IEEE Std 1014-1987) for the threads of
//! C programs and of the languages that call C. Each thread holds a processor, and each export but
//! `vme_processor_run`, `_read`, `_write` and `_modify` does at most one event; none waits.
//! `include/vme_machine.h` declares the exports.
#![tactic(auto)]

mod board;
mod buffers;
mod calls;
mod closing;
mod handle;
mod loading;
mod mailbox;
mod opening;
mod request;
mod results;
mod settled;
mod shared;
mod single;
mod step;
mod structs;
mod transfer;
