// The inotify instances of all clients.
ghost use Rattle.std.specs.Prelude.{◌<◌, OnOk, vec_len, vec_capacity};

use crate::bits::{DELETE_SELF, IGNORED};
use crate::id::Id;
use crate::instance::Instance;
use crate::queue::Queue;
use crate::subject::{Aim, Subject};
use crate::telling::Told;
use crate::tree::Tree;
use ov_base::Name;
use std::alloc::{AllocError, Global};

/// The instances of the attached clients in the order of their numbers.
#[derive(Drop)]
pub struct Instances {
    list: Vec<Instance>,
}

// Has each instance hear a subject.
fn tell_all(instances: &mut [Instance], subject: &Subject<'_>) {
    for instance in instances.iter_mut() {
        instance.hear(subject);
    }
}

// Takes the first unread notices of a client out, at most so many.
fn drop_first(instances: &mut [Instance], client: u32, count: u32) {
    for instance in instances.iter_mut() {
        instance.drop_first_of(client, count);
    }
}

impl Instances {
    /// No instances.
    pub fn new(alloc: Global) -> Instances {
        Instances {
            list: Vec::new(alloc),
        }
    }

    /// The instance of a client.
    pub fn get(&self, client: u32) -> Option<&Instance> {
        self.list.iter().find(|instance| instance.client == client)
    }

    fn get_mut(&mut self, client: u32) -> Option<&mut Instance> {
        self.list
            .iter_mut()
            .find(|instance| instance.client == client)
    }

    /// Has each instance hear a subject. It takes no memory.
    pub fn tell(&mut self, subject: &Subject<'_>) {
        tell_all(self.list.as_mut_slice(), subject);
    }

    /// Has each instance hear subjects in their order.
    pub fn tell_all(&mut self, told: &[Told]) {
        for told in told {
            self.tell(&told.subject());
        }
    }

    // Tells a node, without a name.
    fn tell_node(&mut self, node: &Id, bits: u32) {
        self.tell(&Subject {
            aim: Aim::On(node),
            bits,
            cookie: 0,
            name: None,
        });
    }

    // Tells the directory of a way in, with the name.
    fn tell_way(&mut self, way: &Option<(Id, Name)>, bits: u32) {
        if let Some((directory, name)) = way {
            self.tell(&Subject {
                aim: Aim::On(directory),
                bits,
                cookie: 0,
                name: Some(name),
            });
        }
    }

    /// Tells the directory of a way in, with the name, and then the node.
    pub fn tell_both(&mut self, way: &Option<(Id, Name)>, node: &Id, bits: u32) {
        self.tell_way(way, bits);
        self.tell_node(node, bits);
    }

    /// Tells of the end of a node that isn't in the tree.
    pub fn tell_end(&mut self, tree: &Tree, node: &Id) {
        if tree.node(node).is_none() {
            self.tell_node(node, DELETE_SELF);
            self.tell_node(node, IGNORED);
        }
    }

    /// Arms a node for a client through a slot. An allocation failure changes nothing.
    pub fn arm(
        &mut self,
        client: u32,
        slot: u8,
        node: Option<Id>,
        mask: u32,
    ) -> Result<(), AllocError> {
        if let Some(instance) = self.get_mut(client) {
            instance.arm(slot, node, mask)?;
        }
        Ok(())
    }

    /// Takes the first unread notices of a client out, at most so many.
    pub fn drop_first(&mut self, client: u32, count: u32) {
        drop_first(self.list.as_mut_slice(), client, count);
    }

    /// Makes room for one more instance.
    pub fn make_room(&mut self) -> Result<(), AllocError>
        ensures { OnOk result (vec_len self.new.list < vec_capacity self.new.list) }
    {
        self.list.reserve(1)
    }

    /// Lets a client come with the tags of its hooks, for which there is room.
    pub fn attach(&mut self, alloc: Global, client: u32, tags: Vec<u32>, queue: Queue)
        requires { vec_len self.old.list < vec_capacity self.old.list }
    {
        self.list
            .push_reserved(Instance::new(alloc, client, tags, queue));
    }

    /// Lets a client go, unheard.
    pub fn detach(&mut self, client: u32) {
        self.list.retain(|instance| instance.client != client);
    }
}
