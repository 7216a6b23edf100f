//! `getchar` and `putchar` (C99 7.19.7.6 and 7.19.7.9), on streams that are lent.

ghost use Rattle.std.specs.Prelude.{◌≡◌, IfOk};
ghost use Rattle.c_eval_state.specs.Changes.{holding, without_value};
ghost use Rattle.c_eval_state.specs.Left.{left_of};
ghost use Rattle.c_eval_state.specs.Streaming.{GetTold, InputCounts, OutCounts, PutTold};
ghost use Rattle.c_eval_laws.specs.Tasks.{Ahead};
ghost use Rattle.c_tree.specs.Store.{Held};

use crate::end::EvalEnd;
use crate::evaluation::Evaluation;
use crate::value::Value;
use pcc_outside::{Sink, Source, WriteRefusal};

/// The next byte of the input, or -1 at its end.
pub fn get<I: Source>(left: &mut Evaluation<'_>, input: &mut I) -> Result<(), EvalEnd>
    requires { (left_of left.old).way ≡ Ahead }
    ensures told { I.tells input.old → GetTold (left_of left.old) (left_of left.new) (I.left input.old)
        (I.left input.new) result }
    ensures counted { InputCounts (I.faults input.old) (I.faults input.new) result }
    ensures telling { I.tells input.old → I.tells input.new }
    ensures left { IfOk result (λ _. (value : Held) × (left_of left.new ≡ holding value (left_of left.old))) }
{
    match input.next_byte() {
        Ok(Some(byte)) => {
            left.hold(Value::Number(i32::from(byte)))?;
            Ok(())
        }
        Ok(None) => {
            left.hold(Value::Number(-1))?;
            Ok(())
        }
        Err(_) => Err(EvalEnd::ReadFault),
    }
}

/// The low byte of a value is written, and is the value of the whole.
pub fn put<O: Sink>(left: &mut Evaluation<'_>, out: &mut O) -> Result<(), EvalEnd>
    requires { (left_of left.old).way ≡ Ahead }
    ensures told { O.tells out.old → PutTold (left_of left.old) (left_of left.new) (O.taken out.old)
        (O.taken out.new) result }
    ensures counted { OutCounts (O.counts out.old) (O.counts out.new) result }
    ensures telling { O.tells out.old → O.tells out.new }
    ensures left { IfOk result (λ _. (value : Held)
        × (left_of left.new ≡ holding value (without_value (left_of left.old)))) }
{
    let byte = left.take_value().low_byte();
    match out.put_all(&[byte]) {
        Ok(()) => {
            left.hold(Value::Number(i32::from(byte)))?;
            Ok(())
        }
        Err(WriteRefusal::Failed) => Err(EvalEnd::WriteFault),
        Err(WriteRefusal::NoMemory) => Err(EvalEnd::NoMemory),
    }
}
