//! Copies the rows of a state, each a key with its entry.
ghost use Rattle.std.specs.Prelude.{◌≡◌, IfOk};
ghost use Rattle.cif_change.specs.Meaning.{body_meant};
ghost use Rattle.docker_join.specs.Meaning.{op_meant, row_meant};

use cif_file::{Body, Key, Lines};
use docker_join::{Entry, Op};
use std::alloc::{AllocError, Global};

/// A copy of this row.
pub(crate) fn copied_row(alloc: Global, row: &(Key, Entry)) -> Result<(Key, Entry), AllocError>
    ensures { IfOk result (λ copy. row_meant copy ≡ row_meant row.now) }
{
    let op = copied_op(alloc, &row.1.op)?;
    let stamp = row.1.stamp;
    Ok((row.0, Entry { stamp, op }))
}

/// A copy of this op.
fn copied_op(alloc: Global, op: &Op) -> Result<Op, AllocError>
    ensures { IfOk result (λ copy. op_meant copy ≡ op_meant op.now) }
{
    match op {
        Op::Deleted => Ok(Op::Deleted),
        Op::Lapsed => Ok(Op::Lapsed),
        Op::Put(body) => match copied_body(alloc, body) {
            Ok(copy) => Ok(Op::Put(copy)),
            Err(refused) => Err(refused),
        },
    }
}

/// A copy of this body.
fn copied_body(alloc: Global, body: &Body) -> Result<Body, AllocError>
    ensures { IfOk result (λ copy. body_meant copy ≡ body_meant body.now) }
{
    match body {
        Body::Tiploc(bytes) => Ok(Body::Tiploc(*bytes)),
        Body::Assoc(line) => Ok(Body::Assoc(*line)),
        Body::Schedule(lines) => copied_lines(alloc, lines),
    }
}

/// The body of a schedule with a copy of these lines.
fn copied_lines(alloc: Global, lines: &Lines) -> Result<Body, AllocError>
    ensures { IfOk result (λ copy. body_meant copy ≡ body_meant (Body.Schedule lines.now)) }
{
    let lines = Vec::from_slice(alloc, lines.as_slice())?;
    Ok(Body::Schedule(Lines::of(lines)))
}
