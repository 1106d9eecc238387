ghost use Rattle.std.specs.Prelude.{◌≡◌, ◌<◌, ◌≤◌, ◌+◌, IfErr, IfOk, MatchOption, None, OnErr, OnOk, Some, length, map};
ghost use Rattle.nuc_world.specs.Clients.{IsNoClient, MissesFailure};
ghost use Rattle.nuc_world.specs.Parts.{member_now};
ghost use Rattle.nuc_world.specs.Runs.{IsRecounted, Reaches};
ghost use Rattle.nuc_world.specs.State.{member_of, with_failure};
ghost use Rattle.nuc_world.specs.Units.{units_of};
ghost use Rattle.nuc_world.specs.World.{Steps, Stops, opened};
ghost use Rattle.nuc_world.specs.declared.stop.TheConstants.{MOST_UNITS};

use crate::book::Book;
use crate::member::new_members;
use crate::shared::Shared;
use crate::stepping::{step_member, step_shared};
use crate::stop::Stop;
use crate::turn::client_of;
use nuc_base::TreeLike;
use nuc_blocks::Store;
use nuc_log::{Event, Log, Member, View};
use std::alloc::{AllocError, Global};
use std::marker::Model;

/// A server, its clients, and their folders in memory, with the log of what happened.
///
/// The log always leads from the opening to what there is, step by step. Clients count from 1.
#[derive(Drop)]
pub struct World<T: TreeLike> {
    shared: Shared,
    members: Vec<Member<T>>,
    book: Book,
}

impl<T: TreeLike> Model for World<T> {
    ghost use Rattle.nuc_world.specs.Codes.{world_code};
    ghost use Rattle.nuc_world.specs.World.{WorldData};

    ghost Value = { WorldData };

    ghost coded = { world_code };

    ghost use Rattle.std.specs.Prelude.{map};
    ghost use Rattle.nuc_world.specs.Kept.{IsKept, world_of};
    ghost use Rattle.nuc_world.specs.Parts.{member_now, member_then};

    ghost view = { λ w. world_of w.shared (map (λ m. member_now m.client m.folder) w.members.items) w.book };

    ghost invariant = { λ w. IsKept w.shared (map (λ m. member_now m.client m.folder) w.members.items) (map (λ m. member_then m.client m.folder) w.members.items) w.book };
}

impl<T: TreeLike + Drop> World<T> {
    /// A world of so many clients, in which nothing has happened yet.
    pub fn empty(alloc: Global, clients: u32) -> Result<World<T>, AllocError>
        requires some { 0 < clients }
        requires few { clients ≤ 16 }
        ensures { IfOk result (λ w. w ≡ opened clients) }
    {
        Ok(World {
            shared: Shared::new(alloc),
            members: new_members(alloc, clients)?,
            book: Book::opened(alloc, clients)?,
        })
    }

    /// Takes a step. How the event was answered stands at the end of the log then.
    pub fn step(&mut self, alloc: Global, event: Event) -> Result<(), Stop>
        ensures ok { OnOk result (Steps self.old event self.new) }
        ensures err { IfErr result (λ stop. Stops self.old event stop self.new) }
    {
        let Some(client) = client_of(&event) else {
            return step_shared(alloc, &mut self.book, &mut self.shared, event);
        };
        let Some(index) = index_of(client, self.members.len()) else {
            return Err(Stop::NoClient);
        };
        let member = &mut self.members[index];
        step_member(alloc, &mut self.book, &mut self.shared, member, event)
    }

    /// The k-th call of the client's folder from now on fails. It is no step.
    pub fn fail_at(&mut self, client: u32, k: u64) -> Result<(), Stop>
        requires { 0 < k }
        ensures ok { OnOk result (IsRecounted client (with_failure k) self.old.now self.new.now × (self.new.log ≡ self.old.log)) }
        ensures err { OnErr result (self.new ≡ self.old) }
        ensures why { IfErr result (λ why. MissesFailure client self.old.now why) }
    {
        let Some(index) = index_of(client, self.members.len()) else {
            return Err(Stop::NoClient);
        };
        let member = &mut self.members[index];
        match member.folder.fail_at(k) {
            Ok(()) => Ok(()),
            Err(_) => Err(Stop::Memory),
        }
    }

    /// What has happened, from the opening on.
    pub fn log(&self) -> &Log
        ensures log { result.now ≡ self.now.log }
        ensures reached { Reaches self.now.log self.now.now }
        ensures few { units_of self.now.log ≤ MOST_UNITS }
    {
        let _ = &self.members;
        self.book.log()
    }

    /// How many clients there are.
    pub fn clients(&self) -> u32
        ensures { result ≡ length self.now.now.members }
    {
        self.members.len() as u32
    }

    /// A client with its folder.
    pub fn member(&self, client: u32) -> Option<&Member<T>>
        ensures { MatchOption result (member_of client self.now.now.members ≡ None)
            (λ m. member_of client self.now.now.members ≡ Some (member_now m.now.client m.now.folder)) }
    {
        let index = index_of(client, self.members.len())?;
        Some(&self.members[index])
    }

    /// All of it, as a report shows it.
    pub fn view(&self) -> View<'_, T>
        ensures server { result.server.now.now ≡ self.now.now.shared.entries }
        ensures edits { result.edits.now.now ≡ self.now.now.shared.edits }
        ensures members { map (λ m. member_now m.client m.folder) result.members.now ≡ self.now.now.members }
    {
        View {
            server: &self.shared.server,
            edits: &self.shared.edits,
            members: self.members.as_slice(),
        }
    }

    /// The blocks of the contents that the server has taken.
    pub fn store(&self) -> &Store
        ensures { result.now.now ≡ self.now.now.shared.blocks }
    {
        &self.shared.store
    }

    /// What has happened, without the world that it led to.
    pub fn into_log(self) -> Log
        ensures log { result ≡ self.log }
        ensures reached { Reaches self.log self.now }
    {
        let _ = &self.members;
        self.book.into_log()
    }
}

/// Where the client stands among so many.
fn index_of(client: u32, count: usize) -> Option<usize>
    ensures { MatchOption result (IsNoClient client count) (λ i. (client ≡ i + 1) × (i < count)) }
{
    let index = (client as usize).checked_sub(1)?;
    if index < count { Some(index) } else { None }
}
