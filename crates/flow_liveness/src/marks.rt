//! Marks of points with variables. A mark is never taken away: what is marked with an earlier variable isn't marked
//! with a later one.

ghost use Rattle.std.specs.Prelude.{◌≡◌, ◌<◌, ◌↔◌, None, Some, length, replicate, slice_set, IfOk, IsTrue};
ghost use Rattle.flow_liveness.specs.SearchBack.{IsMarked};

use pcc_base::NoMemory;
use std::alloc::Global;
use std::marker::Model;

/// The variable that each point is marked with, if with any. A contract sees a list.
#[derive(Drop)]
pub struct Marks {
    marks: Vec<Option<u32>>,
}

impl Model for Marks {
    ghost use Rattle.std.specs.Prelude.{List, Option, ℕ};

    ghost Value = { List (Option ℕ) };

    ghost view = { λ m. m.marks.items };
}

impl Marks {
    /// No marks, for so many points.
    pub fn new(alloc: Global, points: u32) -> Result<Marks, NoMemory>
        ensures { IfOk result (λ marks. marks ≡ replicate points None) }
    {
        let marks = vec![in alloc; None; points as usize]?;
        Ok(Marks { marks })
    }

    /// Whether a point is marked with a variable.
    pub fn has(&self, point: u32, var: u32) -> bool
        requires { point < length self.now }
        ensures { IsTrue result ↔ IsMarked self.now var point }
    {
        self.marks[point as usize] == Some(var)
    }

    /// Marks a point with a variable.
    pub fn set(&mut self, point: u32, var: u32)
        requires { point < length self.old }
        ensures { self.new ≡ slice_set self.old point (Some var) }
    {
        self.marks[point as usize] = Some(var);
    }
}
