//! Asks of the view.

ghost use Rattle.std.specs.Prelude.{◌≡◌, refl};
ghost use Rattle.tq_json_read.specs.Slots.{made_by};
ghost use Rattle.tq_json_read.specs.Views as spec;

use crate::entry::Plan;
use crate::object::take_object;
use crate::parts::{FromReader, Taken};
use crate::scalars::Word;
use std::alloc::Global;
use tq_json::{Format, Reader};
use tq_live::{Purpose, ViewAsk};

/// What stands in an ask of the view, but for its kind.
#[derive(Drop)]
struct ViewMembers {
    cost: Option<u64>,
    purpose: Option<Purpose>,
    read: Option<u64>,
    server: Option<u64>,
    up: Option<bool>,
    write: Option<u64>,
}

const VIEW_ASK_NAMES: &[&str] = &["cost", "is", "purpose", "read", "server", "up", "write"];

impl<'a> FromReader<'a> for ViewAsk {
    ghost at = { λ plan. made_by (spec.view_ask plan.format) };

    ghost none = { λ plan. refl };

    fn read(alloc: Global, plan: &Plan, reader: &mut Reader<'a>, depth: usize) -> Taken<ViewAsk> {
        let (cost, (kind, (purpose, (read, (server, (up, (write, ()))))))) = take_object(
            alloc,
            plan,
            VIEW_ASK_NAMES,
            reader,
            depth,
        )?;
        let members = ViewMembers {
            cost,
            purpose,
            read,
            server,
            up,
            write,
        };
        Ok(view_ask_by(plan.format, kind, members))
    }
}

fn view_ask_by(format: Format, kind: Option<Word<'_>>, members: ViewMembers) -> Option<ViewAsk>
    ensures { result ≡ spec.view_ask_by format kind.entry members }
{
    let kind = kind?;
    if kind.is("setcost") {
        return set_cost(format, members);
    }
    if kind.is("mark") {
        return mark(members.server, members.up);
    }
    if kind.is("choose") {
        return choose(format, members.purpose);
    }
    None
}

fn set_cost(format: Format, members: ViewMembers) -> Option<ViewAsk>
    ensures { result ≡ spec.set_cost format members }
{
    match format {
        Format::One => set_one_cost(members.cost, members.server),
        Format::Two => set_costs(members.read, members.server, members.write),
    }
}

/// One cost, for reading and for writing.
fn set_one_cost(cost: Option<u64>, server: Option<u64>) -> Option<ViewAsk>
    ensures { result ≡ spec.set_one_cost cost server }
{
    let cost = cost?;
    let server = server?;
    Some(ViewAsk::SetCost {
        server,
        read: cost,
        write: cost,
    })
}

fn set_costs(read: Option<u64>, server: Option<u64>, write: Option<u64>) -> Option<ViewAsk>
    ensures { result ≡ spec.set_costs read server write }
{
    let read = read?;
    let server = server?;
    let write = write?;
    Some(ViewAsk::SetCost {
        server,
        read,
        write,
    })
}

fn mark(server: Option<u64>, up: Option<bool>) -> Option<ViewAsk>
    ensures { result ≡ spec.mark server up }
{
    let server = server?;
    let up = up?;
    Some(ViewAsk::Mark { server, up })
}

fn choose(format: Format, purpose: Option<Purpose>) -> Option<ViewAsk>
    ensures { result ≡ spec.choose format purpose }
{
    match format {
        Format::One => Some(ViewAsk::Choose {
            purpose: Purpose::Read,
        }),
        Format::Two => {
            let purpose = purpose?;
            Some(ViewAsk::Choose { purpose })
        }
    }
}
