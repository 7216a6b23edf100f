ghost use Rattle.std.specs.Prelude.{ℕ, List, ◌≡◌, ◌<◌, ◌≤◌, ◌+◌, [], ◌∷◌, ◌++◌, length, slice_get};
ghost use Rattle.std.specs.Prelude.{IfOk, OnOk, MatchResult};
ghost use Rattle.index_lists.specs.Lists.{empty_lists, with_nodes, with_empty_list, with_list, nodes_of, StandsIn};
ghost use Rattle.index_lists.specs.Lists.{IsListed, IsLists};

use crate::link::{Ends, Link, insert, take_out};
use pcc_base::{NoMemory, Steps};
use std::alloc::Global;
use std::marker::Model;
use std::sync::ledger::Ledger;

/// Lists of nodes by their numbers, each node in at most one list. A contract sees `Lists`.
#[derive(Drop)]
pub struct IndexLists {
    links: Vec<Link>,
    ends: Vec<Ends>,
}

impl Model for IndexLists {
    ghost use Rattle.std.specs.Prelude.{length};
    ghost use Rattle.index_lists.specs.Lists.{Lists};

    ghost Value = { Lists };

    ghost use Rattle.index_lists.specs.Links.{walks, IsIndex};

    ghost view = { λ i. record {
      nodes = length i.links.items;
      lists = walks i.links.items i.ends.items;
    } };

    ghost invariant = { λ i. IsIndex i.links.items i.ends.items };
}

/// The link of a node that is in no list yet.
const UNLINKED: Link = Link {
    list: 0,
    previous: None,
    next: None,
};

/// The ends of a list without nodes.
const EMPTY: Ends = Ends {
    first: None,
    last: None,
    count: 0,
};

impl IndexLists {
    /// So many nodes, all in no list, and so many lists.
    pub fn new(alloc: Global, nodes: u32, lists: u32) -> Result<IndexLists, NoMemory>
        ensures { IfOk result (λ made. made ≡ empty_lists nodes lists) }
    {
        let mut links = Vec::new(alloc);
        links.resize(nodes as usize, UNLINKED)?;
        let mut ends = Vec::new(alloc);
        ends.resize(lists as usize, EMPTY)?;
        Ok(IndexLists { links, ends })
    }

    /// Makes room for more nodes, which are in no list. The lists stay.
    pub fn grow(&mut self, nodes: u32) -> Result<(), NoMemory>
        requires { self.old.nodes ≤ nodes }
        ensures { MatchResult result
            (λ _. self.new ≡ with_nodes self.old nodes)
            (λ _. self.new ≡ self.old) }
    {
        self.links.resize(nodes as usize, UNLINKED)?;
        Ok(())
    }

    /// Makes one more list, which is empty, and answers its number.
    pub fn add_list(&mut self) -> Result<u32, NoMemory>
        requires { length self.old.lists < 4294967295 }
        ensures { MatchResult result
            (λ list. (list ≡ length self.old.lists) × (self.new ≡ with_empty_list self.old))
            (λ _. self.new ≡ self.old) }
    {
        let list = self.ends.len() as u32;
        self.ends.push(EMPTY)?;
        Ok(list)
    }

    /// Puts a node that is in no list last into one.
    pub fn push_back<L: Ledger>(&mut self, list: u32, node: u32, steps: &mut Steps<L>)
        requires list { list < length self.old.lists }
        requires node { node < self.old.nodes }
        requires in_none { ¬ IsListed self.old node }
        ensures lists { self.new ≡ with_list self.old list (nodes_of self.old list ++ node ∷ []) }
        ensures steps { steps.new ≡ steps.old + 1 }
    {
        steps.tick();
        let ends = &mut self.ends[list as usize];
        let link = Link {
            list,
            previous: ends.last,
            next: None,
        };
        insert(&mut self.links, ends, node, link);
    }

    /// Puts a node that is in no list right after another, into its list.
    pub fn push_after<L: Ledger>(&mut self, at: u32, node: u32, steps: &mut Steps<L>)
        requires at { IsListed self.old at }
        requires node { node < self.old.nodes }
        requires in_none { ¬ IsListed self.old node }
        ensures lists { (list : ℕ) (before after : List ℕ) → StandsIn self.old list before at after
            → self.new ≡ with_list self.old list (before ++ at ∷ node ∷ after) }
        ensures steps { steps.new ≡ steps.old + 1 }
    {
        steps.tick();
        let Link { list, next, .. } = self.links[at as usize];
        let link = Link {
            list,
            previous: Some(at),
            next,
        };
        insert(&mut self.links, &mut self.ends[list as usize], node, link);
    }

    /// Takes a node out of its list.
    pub fn unlink<L: Ledger>(&mut self, node: u32, steps: &mut Steps<L>)
        requires { IsListed self.old node }
        ensures lists { (list : ℕ) (before after : List ℕ) → StandsIn self.old list before node after
            → self.new ≡ with_list self.old list (before ++ after) }
        ensures steps { steps.new ≡ steps.old + 1 }
    {
        steps.tick();
        let link = self.links[node as usize];
        take_out(&mut self.links, &mut self.ends[link.list as usize], link);
    }

    /// The first node of a list, if it has any.
    pub fn first<L: Ledger>(&self, list: u32, steps: &mut Steps<L>) -> Option<u32>
        requires { list < length self.now.lists }
        ensures first { result ≡ slice_get (nodes_of self.now list) 0 }
        ensures steps { steps.new ≡ steps.old + 1 }
    {
        steps.tick();
        self.ends[list as usize].first
    }

    /// The node right after another in its list, if that isn't the last.
    pub fn next<L: Ledger>(&self, node: u32, steps: &mut Steps<L>) -> Option<u32>
        requires { IsListed self.now node }
        ensures next { (list : ℕ) (before after : List ℕ) → StandsIn self.now list before node after
            → result ≡ slice_get after 0 }
        ensures steps { steps.new ≡ steps.old + 1 }
    {
        steps.tick();
        self.links[node as usize].next
    }

    /// How many nodes a list has.
    pub fn len<L: Ledger>(&self, list: u32, steps: &mut Steps<L>) -> u32
        requires { list < length self.now.lists }
        ensures len { result ≡ length (nodes_of self.now list) }
        ensures steps { steps.new ≡ steps.old + 1 }
    {
        steps.tick();
        self.ends[list as usize].count
    }

    /// The nodes of a list in order, as a vector of their own: a step for the first, and one behind each node.
    pub fn nodes_in<L: Ledger>(
        &self,
        alloc: Global,
        list: u32,
        steps: &mut Steps<L>,
    ) -> Result<Vec<u32>, NoMemory>
        requires { list < length self.now.lists }
        ensures nodes { IfOk result (λ nodes. nodes.items ≡ nodes_of self.now list) }
        ensures steps { OnOk result (steps.new ≡ steps.old + length (nodes_of self.now list) + 1) }
    {
        let mut nodes = Vec::new(alloc);
        let mut at = self.first(list, steps);
        'nodes: while let Some(node) = at {
            nodes.push(node)?;
            at = self.next(node, steps);
        }
        Ok(nodes)
    }

    /// How many lists there are. It asks nothing of a list or a node, and takes no step.
    pub fn lists(&self) -> usize
        ensures { result ≡ length self.now.lists }
    {
        self.ends.len()
    }

    /// What index lists always keep, as a fact for callers.
    pub fn is_lists(&self)
        ensures { IsLists self.now }
    {
        let _ = &self.links;
    }

    /// The same lists once more.
    pub fn copy(&self, alloc: Global) -> Result<IndexLists, NoMemory>
        ensures { IfOk result (λ copy. copy ≡ self.now) }
    {
        Ok(IndexLists {
            links: self.links.to_vec(alloc)?,
            ends: self.ends.to_vec(alloc)?,
        })
    }
}
