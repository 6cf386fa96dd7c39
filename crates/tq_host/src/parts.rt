//! Servers, the desk and the view as parts that answer lines, in the form of journal files.

ghost use Rattle.tq_json.specs.declared.format.Format.TheVariants.{Two};
ghost use Rattle.tq_json_read.{specs.Frame.IsAlone, proofs.Places.alone-once};
ghost use Rattle.tq_json_read.specs.Frame as entries;
ghost use Rattle.tq_board.specs.Lines.{entry_line, answer_line};

use crate::wire::Wire;
use std::alloc::Global;
use tq_asks::{NodeAsk, NodeReply};
use tq_board::{answer_to_json, entry_to_json};
use tq_desk::{Desk, DeskAsk, DeskReply};
use tq_json::Scratch;
use tq_json_read::value_from_json;
use tq_live::{View, ViewAsk, ViewReply};
use tq_node::Node;
use tq_shape::{Entry, Levels, Memory};
use tq_tables::Same;

impl Wire for Node {
    ghost use Rattle.tq_json_read.specs.Nodes.{node_ask};
    ghost use Rattle.tq_board.specs.Nodes.{node_ask_value, node_reply_value};

    ghost reads_ask = { IsAlone (node_ask Two) };

    ghost reads = { λ node. IsAlone (entries.node_entry Two) };

    ghost entry_line = { entry_line node_ask_value node_reply_value };

    ghost told_line = { answer_line node_reply_value };

    fn ask_of_line(
        alloc: Global,
        scratch: &mut Scratch,
        line: &[u8],
    ) -> Result<Option<NodeAsk>, Memory> {
        value_from_json(alloc, Levels::default(), line, scratch)
    }

    fn entry_of_line(
        &self,
        alloc: Global,
        scratch: &mut Scratch,
        line: &[u8],
    ) -> Result<Option<Entry<NodeAsk, NodeReply>>, Memory> {
        value_from_json(alloc, Levels::default(), line, scratch)
    }

    fn line_of_entry(
        &self,
        alloc: Global,
        ask: &NodeAsk,
        given: &NodeReply,
    ) -> Result<String, Memory> {
        let line = entry_to_json(alloc, ask, given)?;
        Ok(line)
    }

    fn line_of_told(alloc: Global, number: u64, given: &NodeReply) -> Result<String, Memory> {
        answer_to_json(alloc, number, given)
    }

    fn is_same_reply(one: &NodeReply, other: &NodeReply) -> bool {
        one.is_same(other)
    }

    ghost reads_once = { λ node line x y. alone-once (entries.node_entry Two) line x y };
}

impl Wire for Desk {
    ghost use Rattle.tq_json_read.specs.Desks.{desk_ask};
    ghost use Rattle.tq_board.specs.Form.{desk_ask_value, desk_reply_value};

    ghost reads_ask = { IsAlone (desk_ask Two) };

    ghost reads = { λ desk. IsAlone (entries.desk_entry Two) };

    ghost entry_line = { entry_line desk_ask_value desk_reply_value };

    ghost told_line = { answer_line desk_reply_value };

    fn ask_of_line(
        alloc: Global,
        scratch: &mut Scratch,
        line: &[u8],
    ) -> Result<Option<DeskAsk>, Memory> {
        value_from_json(alloc, Levels::default(), line, scratch)
    }

    fn entry_of_line(
        &self,
        alloc: Global,
        scratch: &mut Scratch,
        line: &[u8],
    ) -> Result<Option<Entry<DeskAsk, DeskReply>>, Memory> {
        value_from_json(alloc, Levels::default(), line, scratch)
    }

    fn line_of_entry(
        &self,
        alloc: Global,
        ask: &DeskAsk,
        given: &DeskReply,
    ) -> Result<String, Memory> {
        let line = entry_to_json(alloc, ask, given)?;
        Ok(line)
    }

    fn line_of_told(alloc: Global, number: u64, given: &DeskReply) -> Result<String, Memory> {
        answer_to_json(alloc, number, given)
    }

    fn is_same_reply(one: &DeskReply, other: &DeskReply) -> bool {
        one.is_same(other)
    }

    ghost reads_once = { λ desk line x y. alone-once (entries.desk_entry Two) line x y };
}

impl Wire for View {
    ghost use Rattle.tq_json_read.specs.Views.{view_ask};
    ghost use Rattle.tq_board.specs.Form.{view_ask_value, view_reply_value};

    ghost reads_ask = { IsAlone (view_ask Two) };

    ghost reads = { λ view. IsAlone (entries.view_entry Two view.levels) };

    ghost entry_line = { entry_line view_ask_value view_reply_value };

    ghost told_line = { answer_line view_reply_value };

    fn ask_of_line(
        alloc: Global,
        scratch: &mut Scratch,
        line: &[u8],
    ) -> Result<Option<ViewAsk>, Memory> {
        value_from_json(alloc, Levels::default(), line, scratch)
    }

    fn entry_of_line(
        &self,
        alloc: Global,
        scratch: &mut Scratch,
        line: &[u8],
    ) -> Result<Option<Entry<ViewAsk, ViewReply>>, Memory> {
        value_from_json(alloc, self.tree().levels(), line, scratch)
    }

    fn line_of_entry(
        &self,
        alloc: Global,
        ask: &ViewAsk,
        given: &ViewReply,
    ) -> Result<String, Memory> {
        let line = entry_to_json(alloc, ask, given)?;
        Ok(line)
    }

    fn line_of_told(alloc: Global, number: u64, given: &ViewReply) -> Result<String, Memory> {
        answer_to_json(alloc, number, given)
    }

    fn is_same_reply(one: &ViewReply, other: &ViewReply) -> bool {
        one.is_same(other)
    }

    ghost reads_once = { λ view line x y.
        alone-once (entries.view_entry Two view.levels) line x y };
}
