ghost use Rattle.std.specs.Prelude.{◌≡◌, ◌<◌, ◌++◌, ◌∷◌, [], length, slice_get, Some, MatchResult, ⊤};
ghost use Rattle.puzzle_board.specs.Places.{IsPlaceMap, entries_at, no_places, place_in};
ghost use Rattle.puzzle_board.specs.Places.{spilled_at, with_after, with_before};
ghost use Rattle.puzzle_board.specs.Places.{with_frame, with_slot, with_spilled};

use crate::place::Place;
use crate::side::Side;
use pcc_base::NoMemory;
use std::alloc::Global;
use std::marker::Model;

/// The variables that are spilled at one point. A contract sees a list of numbers.
#[derive(Drop)]
struct Spilled {
    list: Vec<u32>,
}

impl Model for Spilled {
    ghost use Rattle.std.specs.Prelude.{List, ℕ};

    ghost Value = { List ℕ };

    ghost view = { λ s. s.list.items };
}

impl Spilled {
    // No variables.
    fn new(alloc: Global) -> Spilled
        ensures { result ≡ [] }
    {
        Spilled {
            list: Vec::new(alloc),
        }
    }

    // Puts a variable last.
    fn push(&mut self, var: u32) -> Result<(), NoMemory>
        ensures { MatchResult result
            (λ _. self.new ≡ self.old ++ var ∷ [])
            (λ _. self.new ≡ self.old) }
    {
        self.list.push(var)?;
        Ok(())
    }

    // The variables.
    fn as_slice(&self) -> &[u32]
        ensures { result.now ≡ self.now }
    {
        self.list.as_slice()
    }
}

/// Where the variables of a function are before and after each of its points, which are spilled there, the slots,
/// and the
/// bytes of the frame. A contract sees a `PlaceMap`.
#[derive(Drop)]
pub struct PointMap {
    before: Vec<Side>,
    after: Vec<Side>,
    spilled: Vec<Spilled>,
    slots: Vec<Option<i32>>,
    frame: u32,
}

impl Model for PointMap {
    ghost use Rattle.puzzle_board.specs.Places.{IsPlaceMap, PlaceMap};

    ghost Value = { PlaceMap };

    ghost view = { λ m. record {
      before = m.before.items;
      after = m.after.items;
      spilled = m.spilled.items;
      slots = m.slots.items;
      frame = m.frame;
    } };

    ghost invariant = { λ m. IsPlaceMap (record {
      before = m.before.items;
      after = m.after.items;
      spilled = m.spilled.items;
      slots = m.slots.items;
      frame = m.frame;
    }) };
}

impl PointMap {
    /// A map of so many points and variables with no places, no slots and nothing spilled.
    pub fn new(alloc: Global, points: u32, vars: u32, frame: u32) -> Result<PointMap, NoMemory>
        ensures { MatchResult result (λ map. map ≡ no_places points vars frame) (λ _. ⊤) }
    {
        let mut before = Vec::new(alloc);
        let mut after = Vec::new(alloc);
        let mut spilled = Vec::new(alloc);
        for _point in 0..points {
            before.push(Side::new(alloc))?;
            after.push(Side::new(alloc))?;
            spilled.push(Spilled::new(alloc))?;
        }
        let mut slots = Vec::new(alloc);
        slots.resize(vars as usize, None)?;
        Ok(PointMap {
            before,
            after,
            spilled,
            slots,
            frame,
        })
    }

    /// The place of a variable before a point, if it has one.
    pub fn before(&self, point: u32, var: u32) -> Option<Place>
        requires { point < length self.now.before }
        ensures { result ≡ place_in (entries_at self.now.before point) var }
    {
        let side = &self.before[point as usize];
        side.get(var)
    }

    /// The place of a variable after a point, if it has one.
    pub fn after(&self, point: u32, var: u32) -> Option<Place>
        requires { point < length self.now.before }
        ensures { result ≡ place_in (entries_at self.now.after point) var }
    {
        let side = &self.after[point as usize];
        side.get(var)
    }

    /// The variables that have a place before a point, in ascending order, each with its place.
    pub fn entries_before(&self, point: u32) -> &[(u32, Place)]
        requires { point < length self.now.before }
        ensures { result.now ≡ entries_at self.now.before point }
    {
        let side = &self.before[point as usize];
        side.as_slice()
    }

    /// The variables that have a place after a point, in ascending order, each with its place.
    pub fn entries_after(&self, point: u32) -> &[(u32, Place)]
        requires { point < length self.now.before }
        ensures { result.now ≡ entries_at self.now.after point }
    {
        let side = &self.after[point as usize];
        side.as_slice()
    }

    /// Gives a variable this place before a point.
    pub fn set_before(&mut self, point: u32, var: u32, place: Place) -> Result<(), NoMemory>
        requires { point < length self.old.before }
        ensures { MatchResult result
            (λ _. self.new ≡ with_before self.old point var place)
            (λ _. self.new ≡ self.old) }
    {
        let side = &mut self.before[point as usize];
        side.set(var, place)
    }

    /// Gives a variable this place after a point.
    pub fn set_after(&mut self, point: u32, var: u32, place: Place) -> Result<(), NoMemory>
        requires { point < length self.old.before }
        ensures { MatchResult result
            (λ _. self.new ≡ with_after self.old point var place)
            (λ _. self.new ≡ self.old) }
    {
        let side = &mut self.after[point as usize];
        side.set(var, place)
    }

    /// Puts a variable last among those that are spilled at a point.
    pub fn add_spilled(&mut self, point: u32, var: u32) -> Result<(), NoMemory>
        requires { point < length self.old.before }
        ensures { MatchResult result
            (λ _. self.new ≡ with_spilled self.old point var)
            (λ _. self.new ≡ self.old) }
    {
        let list = &mut self.spilled[point as usize];
        list.push(var)
    }

    /// The variables that are spilled at a point, in spill order.
    pub fn spilled(&self, point: u32) -> &[u32]
        requires { point < length self.now.before }
        ensures { result.now ≡ spilled_at self.now point }
    {
        let list = &self.spilled[point as usize];
        list.as_slice()
    }

    /// Gives a variable a slot, by its offset from EBP.
    pub fn set_slot(&mut self, var: u32, offset: i32)
        requires { var < length self.old.slots }
        ensures { self.new ≡ with_slot self.old var offset }
    {
        self.slots[var as usize] = Some(offset);
    }

    /// The offset from EBP of a variable's slot, if it has one.
    pub fn slot(&self, var: u32) -> Option<i32>
        requires { var < length self.now.slots }
        ensures { slice_get self.now.slots var ≡ Some result }
    {
        self.slots[var as usize]
    }

    /// Says how many bytes the frame has.
    pub fn set_frame(&mut self, frame: u32)
        ensures { self.new ≡ with_frame self.old frame }
    {
        self.frame = frame;
    }

    /// How many bytes the frame has.
    pub fn frame(&self) -> u32
        ensures { result ≡ self.now.frame }
    {
        self.frame
    }

    /// Each point has its places before and after it and its spilled variables, as a fact for callers.
    pub fn is_place_map(&self)
        ensures { IsPlaceMap self.now }
    {
        let _ = &self.before;
    }
}
