//! The program `tq_refused NAME`: runs a scenario of that name on the product's public calls, most of them over the journal
//! file of the standard input. Where a call is refused memory, what it was to change is compared with what it was before, and
//! the call is made once more. So whatever one request was refused, the same is printed.
#![tactic(auto)]

mod board;
mod cluster;
mod full;
mod input;
mod service;
mod wrong;

use crate::wrong::Wrong;
use std::alloc::Global;
use std::process::ExitCode;
use std::sync::Wait;
use std::thread::Threads;
use tq_merge::{Fault, Order, explain};
use tq_tables::Journals;

fn main(rt: HostRuntime) -> ExitCode {
    match run(&rt, &rt) {
        Ok(()) => ExitCode::SUCCESS,
        Err(wrong) => {
            let _printed = println!(rt; "{wrong}");
            ExitCode::from(1)
        }
    }
}

/// Runs the scenario that the word names; where it asks a cluster, by the handle.
fn run<H: Threads + Wait + Sync>(rt: &HostRuntime, handle: &H) -> Result<(), Wrong> {
    let name = input::word(rt)?;
    if name.as_str() == "full" {
        return full::run(rt);
    }
    let journals = input::journals(rt)?;
    let order = order_of(rt.alloc(), &journals)?;
    match name.as_str() {
        "steps" => service::run(rt, &journals, order.as_slice()),
        "calls" => board::run(rt, &journals, order.as_slice()),
        "pulls" => cluster::pull(rt, handle, &journals, order.as_slice()),
        "pull" => cluster::pull_all(rt, handle, &journals, order.as_slice()),
        "round" => cluster::round(rt, handle, &journals, order.as_slice()),
        "close" => cluster::close(rt, handle, &journals, order.as_slice()),
        _ => Err(Wrong::Input),
    }
}

/// An order that explains the journals, asked for once more where memory is refused.
fn order_of(alloc: Global, journals: &Journals) -> Result<Order, Wrong> {
    let asked = match explain(alloc, journals) {
        Err(Fault::Memory) => explain(alloc, journals),
        told => told,
    };
    match asked {
        Ok(order) => Ok(order),
        Err(Fault::Memory) => Err(Wrong::Memory),
        Err(_) => Err(Wrong::Input),
    }
}
