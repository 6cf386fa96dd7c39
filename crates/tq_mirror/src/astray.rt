//! Whether journals begin with what was pulled.
ghost use Rattle.std.specs.Prelude.{◌≡◌, ◌^◌, MatchOption};
ghost use Rattle.tq_shape.specs.Tree.{IsServer};
ghost use Rattle.tq_tables.specs.Parts.{AreLegal};
ghost use Rattle.tq_mirror.specs.Prefixes.{server_prefix, AllBegin, AllServersBegin, IsFirstAstray, IsServerAstray};

use crate::prefixes::Prefixes;
use tq_shape::Part;
use tq_tables::{Journals, NodeEntry, begins};

/// The entries of the server of that number.
fn server_entries(journals: &Journals, number: u64) -> &[NodeEntry]
    requires { IsServer journals.now.levels number }
    ensures { result.now ≡ server_prefix journals.now number }
{
    let place = (number - 1) as usize;
    journals.servers()[place].as_slice()
}

impl Prefixes {
    /// The first part, the servers upwards, then the desk, then the view, whose journal does not begin with what was
    /// pulled of it; none where each begins so. Journals that have what was pulled alone are legal.
    pub fn first_astray(&self, journals: &Journals) -> Option<Part>
        requires { self.now.levels ≡ journals.now.levels }
        ensures first { MatchOption result
            (AllBegin self.now journals.now) (IsFirstAstray self.now journals.now) }
        ensures legal { AreLegal self.now }
    {
        let _tables = self.tables();
        if let Some(number) = self.first_server_astray(journals) {
            return Some(Part::Server(number));
        }
        if !begins(self.desk(), journals.desk()) {
            return Some(Part::Desk);
        }
        if !begins(self.view(), journals.view()) {
            return Some(Part::View);
        }
        None
    }

    /// The first server, upwards, whose journal does not begin so.
    fn first_server_astray(&self, journals: &Journals) -> Option<u64>
        requires { self.now.levels ≡ journals.now.levels }
        ensures { MatchOption result
            (AllServersBegin self.now journals.now) (IsServerAstray self.now journals.now) }
    {
        for place in 0..journals.levels().servers() {
            let number = place + 1;
            if !begins(self.server(number), server_entries(journals, number)) {
                return Some(number);
            }
        }
        None
    }
}
