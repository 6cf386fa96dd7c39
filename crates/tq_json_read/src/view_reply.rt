//! Replies of the view.

ghost use Rattle.std.specs.Prelude.{◌≡◌, refl, IfOk};
ghost use Rattle.tq_json_read.specs.Slots.{made_by};
ghost use Rattle.tq_json_read.specs.Slots as slots;
ghost use Rattle.tq_json_read.specs.Views as spec;

use crate::entry::Plan;
use crate::object::take_object;
use crate::parts::{FromReader, Taken, take_list};
use crate::scalars::Word;
use std::alloc::Global;
use tq_coterie::Member;
use tq_json::{NotRead, Reader};
use tq_live::{ViewRefusal, ViewReply};
use tq_shape::{Levels, Memory, Seq};

/// The numbers of servers. A list that is longer than each set of servers of the tree takes no memory.
#[derive(Drop)]
struct Servers {
    numbers: Seq<u64>,
}

impl<'a> FromReader<'a> for Servers {
    ghost at = { λ plan. slots.servers_in plan.levels };

    ghost none = { λ plan. refl };

    fn read(alloc: Global, plan: &Plan, reader: &mut Reader<'a>, depth: usize) -> Taken<Servers> {
        let most = plan.levels.servers() as usize + 1;
        let Some(numbers) = take_list(alloc, plan, Some(most), reader, depth)? else {
            return Ok(None);
        };
        Ok(Some(Servers { numbers }))
    }
}

const VIEW_REPLY_NAMES: &[&str] = &["code", "cost", "is", "servers"];

impl<'a> FromReader<'a> for ViewReply {
    ghost at = { λ plan. made_by (spec.view_reply plan.levels) };

    ghost none = { λ plan. refl };

    fn read(alloc: Global, plan: &Plan, reader: &mut Reader<'a>, depth: usize) -> Taken<ViewReply> {
        let (code, (cost, (kind, (servers, ())))) = take_object(
            alloc,
            plan,
            VIEW_REPLY_NAMES,
            reader,
            depth,
        )?;
        Ok(view_reply_by(alloc, plan.levels, kind, code, cost, servers)?)
    }
}

fn view_reply_by(
    alloc: Global,
    levels: Levels,
    kind: Option<Word<'_>>,
    code: Option<u64>,
    cost: Option<u64>,
    servers: Option<Servers>,
) -> Result<Option<ViewReply>, Memory>
    ensures { IfOk result
        (λ reply. reply ≡ spec.view_reply_by levels kind.entry code cost servers) }
{
    let Some(kind) = kind else {
        return Ok(None);
    };
    if kind.is("costset") {
        return Ok(Some(ViewReply::CostSet));
    }
    if kind.is("marked") {
        return Ok(Some(ViewReply::Marked));
    }
    if kind.is("chosen") {
        return chosen_reply(alloc, levels, cost, servers);
    }
    if kind.is("refused") {
        return refused_reply(alloc, levels, code, servers);
    }
    Ok(None)
}

fn chosen_reply(
    alloc: Global,
    levels: Levels,
    cost: Option<u64>,
    servers: Option<Servers>,
) -> Result<Option<ViewReply>, Memory>
    ensures { IfOk result (λ reply. reply ≡ spec.chosen_reply levels cost servers) }
{
    let Some(cost) = cost else {
        return Ok(None);
    };
    let Some(servers) = servers else {
        return Ok(None);
    };
    let Some(quorum) = member_of(alloc, levels, servers.numbers.as_slice())? else {
        return Ok(None);
    };
    Ok(Some(ViewReply::Chosen { quorum, cost }))
}

fn refused_reply(
    alloc: Global,
    levels: Levels,
    code: Option<u64>,
    servers: Option<Servers>,
) -> Result<Option<ViewReply>, Memory>
    ensures { IfOk result (λ reply. reply ≡ spec.view_refused levels code servers) }
{
    let Some(code) = code else {
        return Ok(None);
    };
    if code == 31 {
        return Ok(Some(ViewReply::Refused(ViewRefusal::NoSuchServer)));
    }
    if code == 32 {
        return Ok(Some(ViewReply::Refused(ViewRefusal::BadCost)));
    }
    if code == 33 {
        return blocked_reply(alloc, levels, servers);
    }
    Ok(None)
}

fn blocked_reply(
    alloc: Global,
    levels: Levels,
    servers: Option<Servers>,
) -> Result<Option<ViewReply>, Memory>
    ensures { IfOk result (λ reply. reply ≡ spec.blocked_reply levels servers) }
{
    let Some(servers) = servers else {
        return Ok(None);
    };
    let Some(blocker) = member_of(alloc, levels, servers.numbers.as_slice())? else {
        return Ok(None);
    };
    Ok(Some(ViewReply::Refused(ViewRefusal::Blocked(blocker))))
}

#[tactic(auto, using(crate::proofs::Places::member_from))]
fn member_of<Role>(
    alloc: Global,
    levels: Levels,
    numbers: &[u64],
) -> Result<Option<Member<Role>>, Memory>
    ensures { IfOk result (λ member. member ≡ spec.member_of levels numbers.now) }
{
    Ok(Member::of(alloc, levels, numbers)?)
}
