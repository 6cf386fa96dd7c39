//! Numbers, flags, texts, lists and entries.
use crate::entry_line::put_entry;
use crate::out::Out;
use crate::to_json::{ToJson, put_list};
use tq_evidence::Shareable;
use tq_live::Purpose;
use tq_locks::Mode;
use tq_shape::{Entry, Seq, ServerId, Shared, SharedSeq};
use tq_store::{Content, FileName};

impl ToJson for u64 {
    ghost use Rattle.tq_board.specs.{Values.whole, Sound.IsAny};

    ghost value = { whole };

    ghost sound = { IsAny };

    fn put<O: Out>(&self, out: &mut O) -> Result<(), O::Fault> {
        self.put_after(out, "")
    }

    fn put_after<O: Out>(&self, out: &mut O, piece: &str) -> Result<(), O::Fault> {
        out.push_number(piece, *self)
    }
}

impl ToJson for u32 {
    ghost use Rattle.tq_board.specs.{Values.whole, Sound.IsAny};

    ghost value = { whole };

    ghost sound = { IsAny };

    fn put<O: Out>(&self, out: &mut O) -> Result<(), O::Fault> {
        self.put_after(out, "")
    }

    fn put_after<O: Out>(&self, out: &mut O, piece: &str) -> Result<(), O::Fault> {
        out.push_number(piece, u64::from(*self))
    }
}

impl ToJson for bool {
    ghost use Rattle.serde_json.specs.Data.{boolean};
    ghost use Rattle.tq_board.specs.Sound.{IsAny};

    ghost value = { boolean };

    ghost sound = { IsAny };

    fn put<O: Out>(&self, out: &mut O) -> Result<(), O::Fault> {
        match *self {
            true => out.push("true"),
            false => out.push("false"),
        }
    }
}

impl ToJson for ServerId {
    ghost use Rattle.tq_board.specs.{Values.whole, Sound.IsAny};

    ghost value = { λ server. whole server.number };

    ghost sound = { IsAny };

    fn put<O: Out>(&self, out: &mut O) -> Result<(), O::Fault> {
        self.put_after(out, "")
    }

    fn put_after<O: Out>(&self, out: &mut O, piece: &str) -> Result<(), O::Fault> {
        out.push_number(piece, self.number())
    }
}

impl ToJson for FileName {
    ghost use Rattle.serde_json.specs.Data.{string};
    ghost use Rattle.tq_board.specs.Sound.{IsFile};

    ghost value = { string };

    ghost sound = { IsFile };

    fn put<O: Out>(&self, out: &mut O) -> Result<(), O::Fault> {
        self.put_after(out, "")
    }

    fn put_after<O: Out>(&self, out: &mut O, piece: &str) -> Result<(), O::Fault> {
        let bytes = self.as_bytes();
        out.push_ascii(piece, bytes)
    }
}

impl ToJson for Mode {
    ghost use Rattle.tq_board.specs.{Nodes.mode_value, Sound.IsAny};

    ghost value = { mode_value };

    ghost sound = { IsAny };

    #[tactic(auto, unfolding(json::specs::Print::escape_byte))]
    fn put<O: Out>(&self, out: &mut O) -> Result<(), O::Fault> {
        match self {
            Mode::Shared => out.push("\"shared\""),
            Mode::Exclusive => out.push("\"exclusive\""),
        }
    }
}

impl ToJson for Purpose {
    ghost use Rattle.tq_board.specs.{Form.purpose_value, Sound.IsAny};

    ghost value = { purpose_value };

    ghost sound = { IsAny };

    #[tactic(auto, unfolding(json::specs::Print::escape_byte))]
    fn put<O: Out>(&self, out: &mut O) -> Result<(), O::Fault> {
        match self {
            Purpose::Read => out.push("\"read\""),
            Purpose::Write => out.push("\"write\""),
        }
    }
}

impl ToJson for Content {
    ghost use Rattle.tq_board.specs.{Values.content_value, Sound.IsContent};

    ghost value = { content_value };

    ghost sound = { IsContent };

    fn put<O: Out>(&self, out: &mut O) -> Result<(), O::Fault> {
        self.put_after(out, "")
    }

    fn put_after<O: Out>(&self, out: &mut O, piece: &str) -> Result<(), O::Fault> {
        let bytes = self.as_bytes();
        out.push_digits(piece, bytes)
    }
}

impl<T: ToJson> ToJson for Shared<T> {
    ghost value = { T.value };

    ghost sound = { T.sound };

    #[inline(always)]
    fn put<O: Out>(&self, out: &mut O) -> Result<(), O::Fault> {
        self.get().put(out)
    }

    #[inline(always)]
    fn put_after<O: Out>(&self, out: &mut O, piece: &str) -> Result<(), O::Fault> {
        self.get().put_after(out, piece)
    }
}

impl<T: ToJson> ToJson for Seq<T> {
    ghost use Rattle.tq_board.specs.Values.{list_value};
    ghost use Rattle.std.specs.List.{AllByRecursion};

    ghost value = { list_value T.value };

    ghost sound = { AllByRecursion T.sound };

    fn put<O: Out>(&self, out: &mut O) -> Result<(), O::Fault> {
        put_list(out, self.as_slice())
    }
}

impl<T: ToJson> ToJson for SharedSeq<T> {
    ghost use Rattle.tq_board.specs.Values.{list_value};
    ghost use Rattle.std.specs.List.{AllByRecursion};

    ghost value = { list_value T.value };

    ghost sound = { AllByRecursion T.sound };

    fn put<O: Out>(&self, out: &mut O) -> Result<(), O::Fault> {
        put_list(out, self.as_slice())
    }
}

impl<T: ToJson> ToJson for Shareable<T> {
    ghost use Rattle.tq_board.specs.Values.{list_value};
    ghost use Rattle.std.specs.List.{AllByRecursion};

    ghost value = { list_value T.value };

    ghost sound = { AllByRecursion T.sound };

    fn put<O: Out>(&self, out: &mut O) -> Result<(), O::Fault> {
        put_list(out, self.as_slice())
    }
}

impl<T: ToJson> ToJson for Vec<T> {
    ghost use Rattle.tq_board.specs.Values.{list_value};
    ghost use Rattle.std.specs.List.{AllByRecursion};

    ghost value = { λ list. list_value T.value list.items };

    ghost sound = { λ list. AllByRecursion T.sound list.items };

    fn put<O: Out>(&self, out: &mut O) -> Result<(), O::Fault> {
        put_list(out, self.as_slice())
    }
}

impl<A: ToJson, R: ToJson> ToJson for Entry<A, R> {
    ghost use Rattle.tq_board.specs.{Values.entry_value, Sound.IsEntry};

    ghost value = { entry_value A.value R.value };

    ghost sound = { IsEntry A.sound R.sound };

    fn put<O: Out>(&self, out: &mut O) -> Result<(), O::Fault> {
        put_entry(out, &self.ask, &self.reply)
    }
}
