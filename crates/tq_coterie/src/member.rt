//! Quorums and blockers: one type by its role.

ghost use Rattle.std.specs.Prelude.{◌≡◌, IfOk, OnSome, All};
ghost use Rattle.tq_shape.specs.{Tree.IsServer, ServerSet.Ascends};
ghost use Rattle.tq_coterie.specs.Coterie.{AnswersMember, IsMemberList, is_same, list_of, numbers_of, servers_of};

use crate::membership::is_member;
use smallvec::SmallVec;
use std::alloc::{AllocError, Global};
use std::marker::{Model, PhantomData};
use std::sync::Arc;
use tq_shape::{ExactClone, Levels, Memory, ServerId};

/// The servers of a quorum or a blocker. Up to sixteen of them need no allocation.
pub type ServerIds = SmallVec<ServerId, 16>;

/// The servers of a member, and the levels of their tree.
#[derive(Debug, Drop)]
struct Listed {
    levels: Levels,
    servers: ServerIds,
}

/// A quorum of a tree: a set of servers that has one in common with every other quorum of the tree.
pub type Quorum = Member<ForQuorum>;

/// A member of the coterie whose servers are all down, so that no quorum is up: each has a server in common with it.
pub type Blocker = Member<ForBlocker>;

/// The role of a quorum.
#[derive(Debug)]
pub struct ForQuorum;

/// The role of a blocker.
#[derive(Debug)]
pub struct ForBlocker;

/// A member of the coterie of a tree, in its role. Its clones share the one list, so that it takes a word where it is kept.
#[derive(Debug)]
pub struct Member<Role> {
    list: Arc<Listed>,
    role: PhantomData<Role>,
}

// Written out, so that a crate above lets go of one by a call.
impl<Role> Drop for Member<Role> {
    fn drop(self) {
        let Self { list: _, role: _ } = self;
    }
}

impl<Role> Model for Member<Role> {
    ghost use Rattle.std.specs.Arc.{arc_value};
    ghost use Rattle.tq_coterie.specs.Coterie.{ServerList, IsMemberList, list_of};

    ghost Value = { ServerList };

    ghost view = { λ member.
        list_of (arc_value member.list).levels (arc_value member.list).servers.items };

    ghost invariant = { λ member.
        IsMemberList (arc_value member.list).levels (arc_value member.list).servers.items };
}

impl<Role> Member<Role> {
    /// The member of servers that are known to be one. Answers an error only where memory is refused.
    pub fn new(alloc: Global, levels: Levels, servers: ServerIds) -> Result<Self, Memory>
        requires { IsMemberList levels servers.items }
        ensures { IfOk result (λ member. member ≡ list_of levels servers.items) }
    {
        let list = Arc::new(alloc, Listed { levels, servers })?;
        Ok(Member {
            list,
            role: PhantomData,
        })
    }

    /// The member of these servers. It is there exactly where they are ascending and a member of the coterie.
    pub fn of(alloc: Global, levels: Levels, numbers: &[u64]) -> Result<Option<Self>, Memory>
        ensures exact { IfOk result (λ answer. AnswersMember answer levels numbers.now) }
        ensures ascending { IfOk result (λ answer. OnSome answer (Ascends 0 numbers.now)) }
    {
        if !is_member(levels, numbers) {
            return Ok(None);
        }
        let servers = server_ids(alloc, levels, numbers)?;
        let member = Self::new(alloc, levels, servers)?;
        Ok(Some(member))
    }

    /// The servers, ascending.
    pub fn servers(&self) -> &[ServerId]
        ensures numbers { numbers_of result.now ≡ self.now.servers }
        ensures member { IsMemberList self.now.levels result.now }
        ensures ascending { Ascends 0 self.now.servers }
    {
        self.list.servers.as_slice()
    }

    /// The levels of the tree.
    pub fn levels(&self) -> Levels
        ensures { result ≡ self.now.levels }
    {
        self.list.levels
    }
}

impl<Role> Clone for Member<Role> {
    ghost use Rattle.std.specs.Prelude.{◌≡◌};

    ghost is_clone = { λ member copy. copy ≡ member };

    fn clone(&self) -> Result<Self, AllocError> {
        let list = Arc::try_clone(&self.list)?;
        Ok(Member {
            list,
            role: PhantomData,
        })
    }
}

impl<Role> PartialEq for Member<Role> {
    ghost use Rattle.tq_coterie.specs.Coterie.{is_same};
    ghost use Rattle.std.proofs.Common.{rules};

    ghost eq = { is_same };

    ghost laws = { Prim.search rules };

    fn eq(&self, other: &Self) -> bool {
        are_same(&self.list, &other.list)
    }
}

impl<Role> ExactClone for Member<Role> {
    ghost use Rattle.std.proofs.Common.{rules};

    ghost clones = { Prim.search rules };
}

/// Whether both lists are of one tree and have the same servers.
fn are_same(one: &Listed, other: &Listed) -> bool
    requires one { IsMemberList one.now.levels one.now.servers.items }
    requires other { IsMemberList other.now.levels other.now.servers.items }
    ensures { result ≡ is_same
        (list_of one.now.levels one.now.servers.items)
        (list_of other.now.levels other.now.servers.items) }
{
    if one.levels != other.levels {
        return false;
    }
    one.servers.as_slice() == other.servers.as_slice()
}

/// The servers of those numbers.
fn server_ids(alloc: Global, levels: Levels, numbers: &[u64]) -> Result<ServerIds, Memory>
    requires { All (IsServer levels) numbers.now }
    ensures { IfOk result (λ ids. ids.items ≡ servers_of levels numbers.now) }
{
    let mut ids = ServerIds::new(alloc);
    for number in numbers {
        ids.push(ServerId::new(levels, *number))?;
    }
    Ok(ids)
}
