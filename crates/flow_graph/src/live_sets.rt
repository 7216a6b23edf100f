ghost use Rattle.std.specs.Prelude.{◌≡◌, ◌<◌, ◌++◌, ◌∷◌, [], length, IfOk, MatchResult, ⊤};
ghost use Rattle.std.specs.List.{AllByRecursion};
ghost use Rattle.flow_graph.specs.Lives.{IsAscending, IsLives, at_point, nothing_live, with_live};

use pcc_base::NoMemory;
use std::alloc::Global;
use std::marker::Model;

/// The variables of one point. A contract sees a list of numbers.
#[derive(Drop)]
struct Variables {
    list: Vec<u32>,
}

impl Model for Variables {
    ghost use Rattle.std.specs.Prelude.{List, ℕ};

    ghost Value = { List ℕ };

    ghost view = { λ v. v.list.items };
}

impl Variables {
    // No variables.
    fn new(alloc: Global) -> Variables
        ensures { result ≡ [] }
    {
        Variables {
            list: Vec::new(alloc),
        }
    }

    // Puts a variable last.
    fn push(&mut self, var: u32) -> Result<(), NoMemory>
        ensures { MatchResult result
            (λ _. self.new ≡ self.old ++ var ∷ [])
            (λ _. self.new ≡ self.old) }
    {
        self.list.push(var)?;
        Ok(())
    }

    // The variables.
    fn as_slice(&self) -> &[u32]
        ensures { result.now ≡ self.now }
    {
        self.list.as_slice()
    }

    // The same variables once more.
    fn copy(&self, alloc: Global) -> Result<Variables, NoMemory>
        ensures { IfOk result (λ copy. copy ≡ self.now) }
    {
        Ok(Variables {
            list: self.list.to_vec(alloc)?,
        })
    }
}

/// The lists of all points once more.
fn copy_lists(alloc: Global, lists: &[Variables]) -> Result<Vec<Variables>, NoMemory>
    ensures { IfOk result (λ copies. copies.items ≡ lists.now) }
{
    let mut copies = Vec::new(alloc);
    for list in lists {
        copies.push(list.copy(alloc)?)?;
    }
    Ok(copies)
}

/// The variables that are live before and after each point. A contract sees `Lives`.
#[derive(Drop)]
pub struct LiveSets {
    before: Vec<Variables>,
    after: Vec<Variables>,
}

impl Model for LiveSets {
    ghost use Rattle.flow_graph.specs.Lives.{IsLives, Lives};

    ghost Value = { Lives };

    ghost view = { λ s. record { before = s.before.items; after = s.after.items } };

    ghost invariant = { λ s. IsLives (record { before = s.before.items; after = s.after.items }) };
}

impl LiveSets {
    /// Empty lists for this many points.
    pub fn new(alloc: Global, points: u32) -> Result<LiveSets, NoMemory>
        ensures { MatchResult result (λ sets. sets ≡ nothing_live points) (λ _. ⊤) }
    {
        let mut before = Vec::new(alloc);
        let mut after = Vec::new(alloc);
        for _point in 0..points {
            before.push(Variables::new(alloc))?;
            after.push(Variables::new(alloc))?;
        }
        Ok(LiveSets { before, after })
    }

    /// Puts a variable last in the list before a point; it is greater than all that are there.
    pub fn add_before(&mut self, point: u32, var: u32) -> Result<(), NoMemory>
        requires in_range { point < length self.old.before }
        requires greatest { AllByRecursion (λ v. v < var) (at_point self.old.before point) }
        ensures { MatchResult result
            (λ _. self.new ≡ record self.old { before = with_live self.old.before point var })
            (λ _. self.new ≡ self.old) }
    {
        let list = &mut self.before[point as usize];
        list.push(var)
    }

    /// Puts a variable last in the list after a point; it is greater than all that are there.
    pub fn add_after(&mut self, point: u32, var: u32) -> Result<(), NoMemory>
        requires in_range { point < length self.old.after }
        requires greatest { AllByRecursion (λ v. v < var) (at_point self.old.after point) }
        ensures { MatchResult result
            (λ _. self.new ≡ record self.old { after = with_live self.old.after point var })
            (λ _. self.new ≡ self.old) }
    {
        let list = &mut self.after[point as usize];
        list.push(var)
    }

    /// The variables that are live before a point, in ascending order.
    pub fn before(&self, point: u32) -> &[u32]
        requires { point < length self.now.before }
        ensures value { result.now ≡ at_point self.now.before point }
        ensures ascending { IsAscending result.now }
    {
        let list = &self.before[point as usize];
        list.as_slice()
    }

    /// The variables that are live after a point, in ascending order.
    pub fn after(&self, point: u32) -> &[u32]
        requires { point < length self.now.after }
        ensures value { result.now ≡ at_point self.now.after point }
        ensures ascending { IsAscending result.now }
    {
        let list = &self.after[point as usize];
        list.as_slice()
    }

    /// What live sets always keep, as a fact for callers.
    pub fn is_lives(&self)
        ensures { IsLives self.now }
    {
        let _ = &self.before;
    }

    /// The same live sets once more.
    pub fn copy(&self, alloc: Global) -> Result<LiveSets, NoMemory>
        ensures { IfOk result (λ copy. copy ≡ self.now) }
    {
        let before = copy_lists(alloc, self.before.as_slice())?;
        let after = copy_lists(alloc, self.after.as_slice())?;
        Ok(LiveSets { before, after })
    }
}
