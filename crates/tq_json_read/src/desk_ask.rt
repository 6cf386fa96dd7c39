//! Asks of the desk.

ghost use Rattle.std.specs.Prelude.{◌≡◌, refl};
ghost use Rattle.tq_json_read.specs.Slots.{all_of, made_by};
ghost use Rattle.tq_json_read.specs.Desks as spec;

use crate::entry::Plan;
use crate::object::take_object;
use crate::parts::{FromReader, Taken, take_list};
use crate::scalars::Word;
use std::alloc::Global;
use tq_desk::{Ballot, DeskAsk};
use tq_evidence::{Op, Vote};
use tq_json::Reader;
use tq_shape::SharedSeq;

const DESK_ASK_NAMES: &[&str] = &["is", "ops", "txn", "votes"];

impl<'a> FromReader<'a> for Ballot {
    ghost at = { λ plan. all_of (spec.vote plan.format) };

    ghost none = { λ plan. refl };

    fn read(alloc: Global, plan: &Plan, reader: &mut Reader<'a>, depth: usize) -> Taken<Ballot> {
        let Some(list) = take_list::<Vote>(alloc, plan, None, reader, depth)? else {
            return Ok(None);
        };
        Ok(Some(Ballot::new(alloc, list.into_vec())?))
    }
}

impl<'a> FromReader<'a> for DeskAsk {
    ghost at = { λ plan. made_by (spec.desk_ask plan.format) };

    ghost none = { λ plan. refl };

    fn read(alloc: Global, plan: &Plan, reader: &mut Reader<'a>, depth: usize) -> Taken<DeskAsk> {
        let (kind, (ops, (txn, (votes, ())))) = take_object(
            alloc,
            plan,
            DESK_ASK_NAMES,
            reader,
            depth,
        )?;
        Ok(desk_ask_by(kind, ops, txn, votes))
    }
}

fn desk_ask_by(
    kind: Option<Word<'_>>,
    ops: Option<SharedSeq<Op>>,
    txn: Option<u64>,
    votes: Option<Ballot>,
) -> Option<DeskAsk>
    ensures { result ≡ spec.desk_ask_by kind.entry ops txn votes }
{
    let kind = kind?;
    if kind.is("begin") {
        return Some(DeskAsk::Begin);
    }
    if kind.is("commit") {
        return commit_ask(txn, ops, votes);
    }
    if kind.is("resolve") {
        let txn = txn?;
        return Some(DeskAsk::Resolve { txn });
    }
    None
}

fn commit_ask(
    txn: Option<u64>,
    ops: Option<SharedSeq<Op>>,
    votes: Option<Ballot>,
) -> Option<DeskAsk>
    ensures { result ≡ spec.commit_ask txn ops votes }
{
    let txn = txn?;
    let ops = ops?;
    let votes = votes?;
    Some(DeskAsk::Commit { txn, ops, votes })
}
