//! Replies of the desk.

ghost use Rattle.std.specs.Prelude.{◌≡◌, refl};
ghost use Rattle.tq_json_read.specs.Slots.{made_by};
ghost use Rattle.tq_json_read.specs.Desks as spec;

use crate::entry::Plan;
use crate::object::take_object;
use crate::parts::{FromReader, Taken};
use crate::scalars::Word;
use std::alloc::Global;
use tq_asks::Verdict;
use tq_desk::{DeskRefusal, DeskReply};
use tq_evidence::Rule;
use tq_json::Reader;

const DESK_REPLY_NAMES: &[&str] = &["code", "is", "rule", "serial", "txn", "verdict"];

impl<'a> FromReader<'a> for DeskReply {
    ghost at = { λ plan. made_by spec.desk_reply };

    ghost none = { λ plan. refl };

    fn read(alloc: Global, plan: &Plan, reader: &mut Reader<'a>, depth: usize) -> Taken<DeskReply> {
        let (code, (kind, (rule, (serial, (txn, (verdict, ())))))) = take_object(
            alloc,
            plan,
            DESK_REPLY_NAMES,
            reader,
            depth,
        )?;
        Ok(desk_reply_by(kind, code, rule, serial, txn, verdict))
    }
}

fn desk_reply_by(
    kind: Option<Word<'_>>,
    code: Option<u64>,
    rule: Option<u64>,
    serial: Option<u64>,
    txn: Option<u64>,
    verdict: Option<Verdict>,
) -> Option<DeskReply>
    ensures { result ≡ spec.desk_reply_by kind.entry code rule serial txn verdict }
{
    let kind = kind?;
    if kind.is("txn") {
        return Some(DeskReply::Txn(txn?));
    }
    if kind.is("committed") {
        let serial = serial?;
        return Some(DeskReply::Committed { serial });
    }
    if kind.is("verdict") {
        return Some(DeskReply::Verdict(verdict?));
    }
    if kind.is("refused") {
        return Some(DeskReply::Refused(refusal(code, rule, verdict)?));
    }
    None
}

fn refusal(code: Option<u64>, rule: Option<u64>, verdict: Option<Verdict>) -> Option<DeskRefusal>
    ensures { result ≡ spec.desk_refusal code rule verdict }
{
    let code = code?;
    if code == 21 {
        return Some(DeskRefusal::NoSuchTxn);
    }
    if code == 22 {
        return Some(DeskRefusal::Decided(verdict?));
    }
    if code == 23 {
        return bad_evidence(rule);
    }
    if code == 24 {
        return Some(DeskRefusal::TooManyOps);
    }
    if code == 25 {
        return Some(DeskRefusal::TooManyFiles);
    }
    None
}

fn bad_evidence(rule: Option<u64>) -> Option<DeskRefusal>
    ensures { result ≡ spec.bad_evidence rule }
{
    let number = rule?;
    let rule = Rule::at(number)?;
    Some(DeskRefusal::BadEvidence { rule })
}
