//! The steps of graphs.

use crate::sources::machine::{End, Machine, Value, ops_of};
use flow_graph::{Comparison, Op};
use pcc_base::Trap;

/// The most steps of a run.
const MOST_STEPS: u32 = 5_000_000;

impl Machine<'_> {
    /// To the first op of a block.
    fn jump(&mut self, block: u32) {
        self.current.ops = ops_of(self.current.code, block);
    }

    /// What an op does.
    fn act(&mut self, op: &Op) {
        match *op {
            Op::Const(to, number) => self.constant(to, number),
            Op::Copy(to, from) => self.copy(to, from),
            Op::Wide(to, a)
            | Op::Zero(to, a)
            | Op::Low(to, a)
            | Op::Low16(to, a)
            | Op::Neg(to, a)
            | Op::Not(to, a) => self.compute(op, to, a, a),
            Op::Add(to, a, b)
            | Op::Sub(to, a, b)
            | Op::Mul(to, a, b)
            | Op::And(to, a, b)
            | Op::Or(to, a, b)
            | Op::Xor(to, a, b)
            | Op::Shl(to, a, b)
            | Op::Sar(to, a, b)
            | Op::Shr(to, a, b)
            | Op::Div(to, a, b)
            | Op::Rem(to, a, b)
            | Op::Udiv(to, a, b)
            | Op::Urem(to, a, b) => self.compute(op, to, a, b),
            Op::Set(how, to, a, b) => {
                let holds = self.compare(how, a, b);
                self.set_number(to, holds as i32);
            }
            Op::Setu(how, to, a, b) => {
                let holds = self.order(how, a, b);
                self.set_number(to, holds as i32);
            }
            Op::Frame(to, array) => self.set(to, Value::Array(self.frame_array(array))),
            Op::Static(to, object) => self.set(to, Value::Array(object as usize)),
            Op::Load(bits, to, array, index) => self.load(bits, to, array, index),
            Op::Store(bits, array, index, from) => self.store(bits, array, index, from),
            Op::Get(bits, to, object) => self.get(bits, to, object),
            Op::Put(bits, object, from) => self.put(bits, object, from),
            Op::Clear(array) => self.clear(array),
            Op::Param(to, word) => self.param(to, word),
            Op::Call(wanted, function, ref words) => self.call(wanted, function, words.as_slice()),
            Op::Putchar(to, from) => self.putchar(to, from),
            Op::Getchar(to) => self.getchar(to),
            Op::Exit(status) => self.exit(status),
            Op::Same(a, b) => {
                if !self.compare(Comparison::Eq, a, b) {
                    self.stop(End::Trapped(Trap::Check));
                }
            }
            Op::Mark(_) => {}
            Op::Turn => self.turn(),
            Op::Jump(block) => self.jump(block),
            Op::Branch(how, a, b, x, y) => {
                let block = if self.compare(how, a, b) { x } else { y };
                self.jump(block);
            }
            Op::Branchu(how, a, b, x, y) => {
                let block = if self.order(how, a, b) { x } else { y };
                self.jump(block);
            }
            Op::Return(from) => self.returns(from),
        }
    }

    fn step(&mut self) {
        match self.current.ops {
            [op, rest @ ..] => {
                self.current.ops = rest;
                self.act(op);
            }
            [] => self.stop(End::Stuck),
        }
    }

    /// Steps up to the end.
    pub fn run(&mut self) -> End {
        for _ in 0..MOST_STEPS {
            self.step();
            if let Some(end) = self.end {
                return end;
            }
        }
        End::Stuck
    }
}
